//! Answers the questions of a table, line by line. A line is a question and what it is about, in
//! the words of `bytes`, and may have ` = ` with the answer that is wanted after it. Written is each
//! question with its answer, but for those that are as wanted, and last how many answers were
//! wanted and how many are. Of the file `stdin`, where all answers stand, that is all.
//!
//! # What is proved, tested and trusted
//!
//! Nothing is claimed: the checks ask it.
#![tactic(auto)]

mod addresses;
mod again;
mod bytes;
mod certificates;
mod copies;
mod drawn;
mod entries;
mod faulty;
mod fields;
mod files;
mod hosts;
mod issued;
mod keys;
mod kinds;
mod krl;
mod messages;
mod names;
mod narrow;
mod openssh_lines;
mod option_items;
mod pairs;
mod privates;
mod questions;
mod requests;
mod revoked;
mod signatures;
mod slices;
mod validity;
mod wire;
mod without_memory;

use std::alloc::{AllocError, Global};
use std::fs::Files;
use std::io::{self, BufRead, BufReader, Write};

/// What stands between a question and the answer that is wanted.
const WANTED: &str = " = ";

/// The question of a line, without the answer that is wanted.
fn question_of(line: &str) -> &str {
    match line.split_once(WANTED) {
        Some((question, _)) => question,
        None => line,
    }
}

/// The answer to a question; a refusal is answered with the text of its error.
fn answer_to<R: Files>(rt: &R, alloc: Global, question: &str) -> Result<String, AllocError> {
    match questions::answer_line(rt, alloc, question) {
        Ok(answer) => Ok(answer),
        Err(error) => error.to_string(alloc),
    }
}

/// Whether the line is the question with that answer.
fn is_wanted(line: &str, question: &str, answer: &str) -> bool {
    match line.strip_prefix(question) {
        Some(rest) => rest.strip_prefix(WANTED) == Some(answer),
        None => false,
    }
}

fn main(rt: HostRuntime) -> io::Result<()> {
    let alloc = rt.alloc();
    let mut output = io::writer(&rt);
    let (mut wanted, mut given) = (0_u64, 0_u64);
    for line in BufReader::new(alloc, rt.reader())?.lines(alloc) {
        let line = line?;
        if line.is_empty() || line.starts_with('#') {
            continue;
        }
        let question = question_of(&line);
        let answer = answer_to(&rt, alloc, question)?;
        wanted = wanted.saturating_add(u64::from(question.len() < line.len()));
        if is_wanted(&line, question, &answer) {
            given = given.saturating_add(1);
        } else {
            writeln!(output, "{question}{WANTED}{answer}")?;
        }
    }
    if wanted > 0 {
        writeln!(output, "{wanted} questions, {given} as wanted")?;
    }
    Ok(())
}
