//! Changes each byte of worked messages and datagrams to each value, makes others at random, and asks
//! of each answer what the library promises.
//!
//! `fuzz SEED COUNT` makes so many messages of each kind and so many datagrams, and prints how many
//! were changed and made and how many answers are broken; on standard error, how many got which answer. Ends with status 1
//! where one is broken; the first of them are printed.
#![tactic(auto)]

mod asking;
mod datagrams;
mod lengths;
mod links;
mod making;
mod random;
mod small;
mod subject;
mod tally;
mod traffic;
mod worked;

use netlink_packet_route::MessageKind;
use std::process::ExitCode;
use std::{env, io};
use subject::Subject;
use tally::Tally;

const USAGE: &str = "usage: fuzz SEED COUNT";

fn main(rt: HostRuntime) -> ExitCode {
    match numbers(&rt) {
        Ok(Some((seed, count))) => match all(&rt, seed, count) {
            Ok(0) => ExitCode::SUCCESS,
            Ok(_) => ExitCode::from(1),
            Err(fault) => fail(&rt, fault),
        },
        Ok(None) => {
            let _ = rt.eprintln(USAGE);
            ExitCode::from(2)
        }
        Err(fault) => fail(&rt, fault),
    }
}

fn fail(rt: &impl Eprint, fault: io::Error) -> ExitCode {
    let _ = rt.eprintln(fault);
    ExitCode::from(2)
}

/// The two numbers of the command line, if it has them.
fn numbers(rt: &HostRuntime) -> io::Result<Option<(u64, u64)>> {
    let words = env::args(rt)?.skip(1).collect::<Vec<String>>(rt.alloc())?;
    let [seed, count] = words.as_slice() else {
        return Ok(None);
    };
    let (Ok(seed), Ok(count)) = (seed.as_str().parse::<u64>(), count.as_str().parse::<u64>()) else {
        return Ok(None);
    };
    Ok(Some((seed, count)))
}

/// How many messages were asked about, and how many answers were broken.
#[derive(Clone, Copy)]
struct Totals {
    changed: u64,
    made: u64,
    broken: u64,
}

/// Asks about messages of each kind and about datagrams, prints the counts, and answers how many were broken.
fn all(rt: &HostRuntime, seed: u64, count: u64) -> io::Result<u64> {
    let mut totals = Totals {
        changed: 0,
        made: 0,
        broken: 0,
    };
    for kind in MessageKind::ALL {
        ask(rt, Subject::Message(kind), seed, count, &mut totals)?;
    }
    ask(rt, Subject::Datagram, seed, count, &mut totals)?;
    let Totals {
        changed,
        made,
        broken,
    } = totals;
    println!(rt; "{changed} changed messages, {made} made messages, {broken} broken")?;
    Ok(broken)
}

/// Asks about such messages, prints the counts, and adds them.
fn ask(
    rt: &HostRuntime,
    subject: Subject,
    seed: u64,
    count: u64,
    totals: &mut Totals,
) -> io::Result<()> {
    let mut tally = Tally::new(rt.alloc());
    tally.ask_changed(rt, subject)?;
    totals.changed = totals.changed.saturating_add(tally.asked);
    tally.ask_made(rt, subject, seed, count)?;
    totals.made = totals.made.saturating_add(count);
    eprintln!(rt; "{}: {} asked", subject.name(), tally.asked)?;
    tally.print(rt)?;
    totals.broken = totals.broken.saturating_add(tally.broken);
    Ok(())
}
