//! How many messages got which answer.

use crate::asking::{Answer, answer_to};
use crate::making::Maker;
use crate::subject::Subject;
use crate::worked::messages;
use std::alloc::{AllocError, Global};
use std::collections::BTreeMap;
use std::io;

/// The messages that are printed at most.
const PRINTED: u64 = 10;

/// The counts of one kind of message, or of datagrams.
#[derive(Drop)]
pub struct Tally {
    counts: BTreeMap<Answer, u64>,
    /// The messages that were asked about.
    pub asked: u64,
    /// Those whose answer is none that is promised.
    pub broken: u64,
}

impl Tally {
    /// No message yet.
    pub fn new(alloc: Global) -> Tally {
        Tally {
            counts: BTreeMap::new(alloc),
            asked: 0,
            broken: 0,
        }
    }

    /// Makes so many messages of this kind, and counts their answers.
    ///
    /// # Errors
    /// Where memory is refused, or a broken message can't be printed.
    pub fn ask_made(
        &mut self,
        rt: &HostRuntime,
        subject: Subject,
        seed: u64,
        count: u64,
    ) -> io::Result<()> {
        let mut maker = Maker::new(rt.alloc(), seed);
        let mut bytes = Vec::new(rt.alloc());
        for _ in 0..count {
            maker.make(subject, &mut bytes)?;
            self.ask(rt, subject, bytes.as_slice())?;
        }
        Ok(())
    }

    /// Changes each byte of each worked message of this kind to each value, and counts the answers.
    ///
    /// # Errors
    /// Where memory is refused, or a broken message can't be printed.
    pub fn ask_changed(&mut self, rt: &HostRuntime, subject: Subject) -> io::Result<()> {
        for text in messages(subject) {
            let mut bytes = Vec::new(rt.alloc());
            bytes.resize(text.len() / 2, 0u8)?;
            if hex::decode_to_slice(*text, bytes.as_mut_slice()).is_err() {
                self.broken = self.broken.saturating_add(1);
                println!(rt; "broken: no hexadecimal text: {text}")?;
            }
            for place in 0..bytes.len() {
                let kept = bytes[place];
                for value in 0..=u8::MAX {
                    bytes[place] = value;
                    self.ask(rt, subject, bytes.as_slice())?;
                }
                bytes[place] = kept;
            }
        }
        Ok(())
    }

    /// Counts the answer to the bytes, and prints them where it is none that is promised.
    fn ask(&mut self, rt: &HostRuntime, subject: Subject, bytes: &[u8]) -> io::Result<()> {
        let answered = answer_to(rt.alloc(), subject, bytes)?;
        self.asked = self.asked.saturating_add(1);
        let count = self.counts.entry(answered)?.or_insert(0);
        *count = count.saturating_add(1);
        if let Answer::Broken(promise) = answered {
            self.broken = self.broken.saturating_add(1);
            if self.broken <= PRINTED {
                let digits = hex::encode(rt.alloc(), bytes)?;
                println!(rt; "broken: {promise}: {digits}")?;
            }
        }
        Ok(())
    }

    /// Prints each answer with its count, on standard error.
    ///
    /// # Errors
    /// Where printing fails.
    pub fn print(&self, rt: &HostRuntime) -> io::Result<()> {
        for (answered, count) in self.counts.iter() {
            match answered {
                Answer::Canonical => eprintln!(rt; "{count:>10} canonical")?,
                Answer::Refused(name) => eprintln!(rt; "{count:>10} refused {name}")?,
                Answer::Unfit(name) => eprintln!(rt; "{count:>10} unfit {name}")?,
                Answer::Broken(promise) => eprintln!(rt; "{count:>10} broken {promise}")?,
            }
        }
        Ok(())
    }
}
