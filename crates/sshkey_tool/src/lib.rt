//! The program `sshkey`, over any input and output.
//!
//! # What is proved, tested and trusted
//!
//! It is proved that what `run` writes is the line of `specs/Table.antt` for its words and its
//! input, with its status; or else a beginning of that line with status 1, or the line for an error
//! of the machine. `checks/program` tests that it goes on after a refused entry. `checks/load`
//! tests that 200,000 lines and one line of 16 MB take linear time and bounded memory.
#![tactic(auto)]

mod certificate;
mod command;
mod entries;
mod output;
mod program;
mod refusal;
mod shown;

pub use program::run;
