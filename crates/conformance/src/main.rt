//! Compares the answers of the message parsers with those that stand in files.
//!
//! `conformance WORD FILE..`, which may be repeated with another word: each line of a file is hexadecimal text, a tab and an answer, which is
//! `canonical HEX`, `refused NAME` or `unfit NAME`; of `datagrams` it is `messages N others M HEX`.
#![tactic(auto)]

mod answer;
mod comparison;
mod datagram;
mod stop;

use answer::Asked;
use comparison::Comparison;
use std::process::ExitCode;
use std::{env, fmt, io};

const USAGE: &str =
    "usage: conformance KIND|datagrams FILE.. [WORD FILE..], where KIND is a kind of message, as address";

fn main(rt: HostRuntime) -> ExitCode {
    let words = match arguments(&rt) {
        Ok(words) => words,
        Err(fault) => return fail(&rt, format_args!("{fault}")),
    };
    let mut comparison = Comparison::new();
    let mut current = None;
    for argument in words.iter() {
        if let Some(asked) = Asked::of(argument.as_str()) {
            current = Some(asked);
            continue;
        }
        let Some(asked) = current else {
            return fail(&rt, format_args!("{USAGE}"));
        };
        if let Err(fault) = comparison.compare_file(&rt, asked, argument.as_str()) {
            return fail(&rt, format_args!("{argument}: {fault}"));
        }
    }
    if current.is_none() {
        return fail(&rt, format_args!("{USAGE}"));
    }
    summarize(&rt, &comparison)
}

fn fail<D: fmt::Display + Drop>(rt: &impl Eprint, line: D) -> ExitCode {
    let _ = rt.eprintln(line);
    ExitCode::from(2)
}

fn arguments(rt: &HostRuntime) -> io::Result<Vec<String>> {
    let words = env::args(rt)?.skip(1).collect(rt.alloc())?;
    Ok(words)
}

fn summarize(rt: &HostRuntime, comparison: &Comparison) -> ExitCode {
    let lines = comparison.lines;
    let differ = comparison.differ;
    match println!(rt; "{lines} lines, {differ} differ") {
        Ok(()) if differ == 0 => ExitCode::SUCCESS,
        _ => ExitCode::from(1),
    }
}
