//! A reader or a writer whose failed calls are counted.

ghost use Rattle.std.specs.{Prelude.{◌≡◌, ◌<◌, IfOk, length}, Io.{ReadsAtMost, WritesAtMost, KnownBytes.{Keeps, ReadConsumes, WriteAppends}}};
ghost use Rattle.netlink_report.specs.Counted.{failures_after};

use std::io;
use std::io::{ErrorKind, Read, Write};

/// Reads and writes what `inner` does, and counts the calls that fail.
#[derive(Debug, Drop)]
pub struct Counted<T> {
    /// What the calls go to.
    pub inner: T,
    /// How many calls failed, or the greatest `u64` where more did.
    pub failures: u64,
}

impl<T> Counted<T> {
    /// Counts from zero.
    pub fn new(inner: T) -> Counted<T>
        ensures inner { result.inner ≡ inner }
        ensures fresh { result.failures ≡ 0 }
    {
        Counted { inner, failures: 0 }
    }

    /// The reader or writer itself.
    pub fn into_inner(self) -> T
        ensures { result ≡ self.inner }
    {
        let Counted { inner, failures: _ } = self;
        inner
    }
}

impl<T: Read> Read for Counted<T> {
    ghost remaining = { λ counted. T.remaining counted.inner };

    fn read(&mut self, buf: &mut [u8]) -> io::Result<usize>
        ensures bound { ReadsAtMost result buf.new }
        ensures bytes { ReadConsumes (T.remaining self.old.inner) (T.remaining self.new.inner) result buf.new }
        ensures failures { self.new.failures ≡ failures_after self.old.failures result }
    {
        let answer = self.inner.read(buf);
        if answer.is_err() {
            self.failures = self.failures.saturating_add(1);
        }
        answer
    }
}

impl<T: Write> Write for Counted<T> {
    ghost contents = { λ counted. T.contents counted.inner };

    /// A call that takes nothing of some bytes fails.
    fn write(&mut self, buf: &[u8]) -> io::Result<usize>
        ensures bound { WritesAtMost result buf.now }
        ensures bytes { WriteAppends (T.contents self.old.inner) (T.contents self.new.inner) result buf.now }
        ensures takes { 0 < length buf.now → IfOk result (λ n. 0 < n) }
        ensures failures { self.new.failures ≡ failures_after self.old.failures result }
    {
        let answer = match self.inner.write(buf) {
            Ok(0) if !buf.is_empty() => Err(io::Error::from(ErrorKind::WriteZero)),
            answer => answer,
        };
        if answer.is_err() {
            self.failures = self.failures.saturating_add(1);
        }
        answer
    }

    fn flush(&mut self) -> io::Result<()>
        ensures bytes { Keeps (T.contents self.old.inner) (T.contents self.new.inner) }
        ensures failures { self.new.failures ≡ failures_after self.old.failures result }
    {
        let answer = self.inner.flush();
        if answer.is_err() {
            self.failures = self.failures.saturating_add(1);
        }
        answer
    }
}
