// A read or a write that failed, and what is said of it: `standard output: No space left on device`.

use arrayvec::ArrayString;
use std::fmt::Write;
use std::{fmt, io};

#[derive(Clone, Copy)]
pub enum Failure {
    Input(io::Error),
    Output(io::Error),
}

// Room for the text of an error.
const TEXT: usize = 256;

// The system's own words for an error. The number that `io::Error` prints behind them is left out.
fn say<W: fmt::Write>(stream: &str, error: &io::Error, f: &mut fmt::Formatter<W>) -> fmt::Result {
    let mut text = ArrayString::<TEXT>::new();
    write!(text, "{error}")?;
    match text.as_str().rsplit_once(" (os error ") {
        Some((words, _)) => write!(f, "{stream}: {words}"),
        None => write!(f, "{stream}: {text}"),
    }
}

impl fmt::Display for Failure {
    fn fmt<W: fmt::Write>(&self, f: &mut fmt::Formatter<W>) -> fmt::Result {
        match self {
            Failure::Input(error) => say("standard input", error, f),
            Failure::Output(error) => say("standard output", error, f),
        }
    }
}
