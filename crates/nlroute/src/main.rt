//! Reads a message of rtnetlink as hexadecimal text, and reports on it.
#![tactic(auto)]

ghost use Rattle.std.specs.{Prelude.{◌≡◌, IfErr}, Process.{exit_status}};
ghost use Rattle.netlink_report.specs.{Error.{status_of}, declared.error.RunError.TheVariants.{Memory}};

use netlink_report::{Command, Counted, Ended, HELP, RunError, USAGE, Where, Which, finish, run};
use std::process::ExitCode;
use std::rt::Env;
use std::{env, io};

/// The version, which is the repository's.
const VERSION: &str = "nlroute 0.17.0";

fn main(rt: HostRuntime) -> ExitCode {
    match chosen(&rt) {
        Ok(Some(Command::Help)) => say(&rt, &[USAGE, HELP]),
        Ok(Some(Command::Version)) => say(&rt, &[VERSION]),
        Ok(Some(Command::Report(which, tells_place))) => report_on(&rt, which, tells_place),
        Ok(None) => {
            let _ = rt.eprintln(USAGE);
            ExitCode::from(2)
        }
        Err(fault) => refuse(&rt, fault),
    }
}

/// What the command line asks for, if it is anything.
fn chosen(rt: &(impl Env + AllocGlobal)) -> Result<Option<Command>, RunError>
    ensures { IfErr result (λ e. e ≡ Memory) }
{
    match words(rt) {
        Ok(words) => Ok(Command::of(words.as_slice())),
        // Also where a word is no UTF-8.
        Err(_) => Err(RunError::Memory),
    }
}

/// The words after the program's name.
fn words(rt: &(impl Env + AllocGlobal)) -> io::Result<Vec<String>> {
    let words = env::args(rt)?.skip(1).collect(rt.alloc())?;
    Ok(words)
}

/// Prints lines.
fn say(rt: &HostRuntime, lines: &[&str]) -> ExitCode {
    for line in lines {
        if rt.println(*line).is_err() {
            return refuse(rt, RunError::Write);
        }
    }
    ExitCode::SUCCESS
}

/// Runs over standard input and standard output.
fn report_on(rt: &HostRuntime, which: Which, tells_place: bool) -> ExitCode {
    let mut reader = Counted::new(rt.stdin());
    let mut writer = Counted::new(rt.stdout());
    if let Err(ended) = run(rt.alloc(), which, &mut reader, &mut writer) {
        return explain(rt, ended, tells_place);
    }
    match finish(&mut writer) {
        Ok(()) => ExitCode::SUCCESS,
        Err(fault) => refuse(rt, fault),
    }
}

/// Prints the fault's line, then where it stands if that is told, and a hint if there is one. It gives the
/// fault's status.
fn explain(rt: &impl Eprint, ended: Ended, tells_place: bool) -> ExitCode
    ensures { exit_status result ≡ status_of ended.error }
{
    let status = refuse(rt, ended.error);
    if tells_place && !matches!(ended.place, Where::Nowhere) {
        let _ = rt.eprintln(ended.place);
    }
    if let Some(hint) = ended.hint() {
        let _ = rt.eprintln(hint);
    }
    status
}

/// Prints the fault's line, with no new memory, and gives its status.
fn refuse(rt: &impl Eprint, fault: RunError) -> ExitCode
    ensures { exit_status result ≡ status_of fault }
{
    let (label, name) = fault.line();
    let _ = rt.eprintln(format_args!("{label}{name}"));
    ExitCode::from(fault.status())
}
