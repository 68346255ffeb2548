//! What the table of `sshkey_cases` does not ask: calls that have no line there, with ample memory;
//! readers, writers, inputs and outputs that fail; and verifiers. A test asserts answers of yes or
//! no, since one with a `?` at every call takes longer to prove.

mod asked_signers;
mod authorized_parts;
mod certificates;
mod derivations;
mod entry_files;
mod errors;
mod failing;
mod failing_files;
mod host_parts;
mod issued;
mod key_files;
mod keys;
mod kinds;
mod laws;
mod lines;
mod lists;
mod names;
mod pair_parts;
mod pairs;
mod paths;
mod private_keys;
mod program;
mod readers;
mod reads;
mod ssh_signatures;
mod support;
mod times;
mod values;
mod verification;
mod writers;
