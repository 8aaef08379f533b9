//! Writes messages of its own again, and of routes parses and clones them and reads their attributes one
//! after the other, and prints how each call ended: for runs in which a request for memory is refused from
//! outside.
//!
//! `out_of_memory ROW..`: a row is a message, and gives a line for each call.
#![tactic(auto)]

mod rows;
mod trial;

use rows::{Called, Row};
use std::alloc::Global;
use std::process::ExitCode;
use std::{env, io};
use trial::{Endings, try_levels, try_message, try_next_hop};

const USAGE: &str = "usage: out_of_memory ROW..";

fn main(rt: HostRuntime) -> ExitCode {
    let Ok(words) = arguments(&rt) else {
        let _ = rt.eprintln("out of memory");
        return ExitCode::from(4);
    };
    for word in words.iter() {
        let Some(row) = Row::of(word.as_str()) else {
            let _ = rt.eprintln(USAGE);
            return ExitCode::from(2);
        };
        let endings = tried(rt.alloc(), row);
        if report(&rt, word.as_str(), endings).is_err() {
            return ExitCode::from(5);
        }
    }
    ExitCode::SUCCESS
}

fn arguments(rt: &HostRuntime) -> io::Result<Vec<String>> {
    let words = env::args(rt)?.skip(1).collect(rt.alloc())?;
    Ok(words)
}

/// How each call on the row's message ended.
fn tried(alloc: Global, row: Row) -> Endings {
    match row.called {
        Called::Levels => try_levels(alloc),
        Called::Message(kind) => try_message(alloc, kind, row.text, row.canonical),
        Called::NextHop => try_next_hop(alloc, row.text, row.canonical),
    }
}

/// Prints a line for each call, without new memory.
fn report(rt: &HostRuntime, name: &str, endings: Endings) -> io::Result<()> {
    for (call, ending) in endings.by_name() {
        if let Some(ending) = ending {
            let told = ending.name();
            rt.println(format_args!("{name} {call}: {told}"))?;
        }
    }
    Ok(())
}
