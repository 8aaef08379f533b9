//! Shows messages of rtnetlink as `ip` does.
#![tactic(auto)]

mod capture;
mod command_line;
mod guess;
mod kept;
mod reading;
mod refusal;
mod session;

use byte_window::Stop;
use command_line::{Command, HELP, Request, USAGE, WrongWord, command_of};
use kept::{Kept, is_emptied};
use reading::read_input;
use session::Session;
use std::process::ExitCode;
use std::{env, fs, io};

/// The version, which is the repository's.
const VERSION: &str = "nlshow 0.17.0";

fn main(rt: HostRuntime) -> ExitCode {
    // Also where a word is no UTF-8.
    let Ok(words) = words(&rt) else {
        return stopped(&rt, "nlshow", Stop::Memory);
    };
    match command_of(rt.alloc(), words.as_slice()) {
        Err(_) => stopped(&rt, "nlshow", Stop::Memory),
        Ok(Command::Help) => say(&rt, &[USAGE, HELP]),
        Ok(Command::Version) => say(&rt, &[VERSION]),
        Ok(Command::Wrong(word)) => wrong(&rt, word),
        Ok(Command::Show(request)) => show(&rt, &request),
    }
}

/// The words after the program's name.
fn words(rt: &HostRuntime) -> io::Result<Vec<String>> {
    let words = env::args(rt)?.skip(1).collect(rt.alloc())?;
    Ok(words)
}

/// Prints lines.
fn say(rt: &HostRuntime, lines: &[&str]) -> ExitCode {
    for line in lines {
        if let Err(fault) = rt.println(*line) {
            return stopped(rt, "nlshow", Stop::of_write(&fault));
        }
    }
    ExitCode::SUCCESS
}

/// Says why a run ends, and gives its status.
fn stopped(rt: &impl Eprint, name: &str, stop: Stop) -> ExitCode {
    if let Some(line) = stop.line() {
        let _ = rt.eprintln(format_args!("{name}: {line}"));
    }
    ExitCode::from(stop.status())
}

/// Says which word is wrong.
fn wrong(rt: &impl Eprint, word: WrongWord<'_>) -> ExitCode {
    let _ = rt.eprintln(format_args!("nlshow: {word}\n{USAGE}"));
    ExitCode::from(2)
}

/// Shows each input.
fn show(rt: &HostRuntime, request: &Request<'_>) -> ExitCode {
    let keep = request.keep;
    let files = request.files.as_slice();
    let files = if files.is_empty() { &["-"] } else { files };
    for name in files {
        if is_emptied(rt, name, keep) {
            return wrong(rt, WrongWord::Kept(name));
        }
    }
    if let Some(name) = request.links {
        if is_emptied(rt, name, keep) {
            return wrong(rt, WrongWord::Kept(name));
        }
    }
    let mut session = Session::new(rt, request.options, Kept::new(rt, keep));
    if let Err(stop) = learn_names(rt, &mut session, request) {
        return ended(rt, &session, stop);
    }
    let mut failed = None;
    for name in files {
        // What was not there before may be made by now.
        if is_emptied(rt, name, keep) {
            return wrong(rt, WrongWord::Kept(name));
        }
        match show_input(rt, &mut session, name) {
            Ok(()) => {}
            Err(stop) if is_of_input(stop) => failed = Some(stopped(rt, name, stop)),
            Err(stop) => return ended(rt, &session, stop),
        }
    }
    match (session.finish(), failed) {
        (Err(stop), _) => ended(rt, &session, stop),
        (Ok(()), Some(status)) => status,
        (Ok(()), None) => ended(rt, &session, Stop::Closed),
    }
}

/// Whether a run goes on with the next file where one ends so.
fn is_of_input(stop: Stop) -> bool {
    matches!(stop, Stop::Missing | Stop::Forbidden | Stop::Read)
}

/// Learns the names of interfaces from the file that tells them, if there is one.
fn learn_names<'a>(
    rt: &HostRuntime,
    session: &mut Session<'_, 'a>,
    request: &Request<'a>,
) -> Result<(), Stop> {
    let Some(name) = request.links else {
        return Ok(());
    };
    session.begin_learning();
    show_input(rt, session, name)?;
    session.end_learning(request.options);
    Ok(())
}

/// The status of a run that ends so.
fn ended(rt: &impl Eprint, session: &Session<'_, '_>, stop: Stop) -> ExitCode {
    if matches!(stop, Stop::Closed) && session.counts.refused != 0 {
        return ExitCode::from(1);
    }
    stopped(rt, session.subject, stop)
}

/// Shows the input of this name.
fn show_input<'a>(
    rt: &HostRuntime,
    session: &mut Session<'_, 'a>,
    name: &'a str,
) -> Result<(), Stop> {
    session.open(name);
    if name == "-" {
        return read_input(session, rt.stdin());
    }
    let file = fs::open(rt, name).map_err(|fault| Stop::of_open(&fault))?;
    read_input(session, file)
}
