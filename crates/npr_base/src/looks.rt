//! Counts of looks at headers.

ghost use Rattle.std.specs.{Prelude.{◌≡◌}, Cmp.{decided, partial_equiv_from_equiv}};
ghost use Rattle.npr_base.specs.{Counts.{Counts, no_looks, hit, miss, looked, raised}, ViewEquality.{same_counts, counts_equality}};

use std::marker::Model;

/// How often the header of an attribute or of a next hop was looked at, by how the look ended. A
/// count that stands at the greatest `u64` stays there. The end of a list is no look.
#[derive(Debug, Drop)]
pub struct Looks {
    successful: u64,
    failed: u64,
}

impl Model for Looks {
    ghost Value = { Counts };

    ghost view = { λ l. record { successful = l.successful; failed = l.failed } };
}

impl Looks {
    /// No look yet.
    pub fn new() -> Self
        ensures { result ≡ no_looks }
    {
        Looks {
            successful: 0,
            failed: 0,
        }
    }

    /// The looks that found a header.
    pub fn successful(&self) -> u64
        ensures { result ≡ self.now.successful }
    {
        self.successful
    }

    /// The looks that found none where bytes were left.
    pub fn failed(&self) -> u64
        ensures { result ≡ self.now.failed }
    {
        self.failed
    }

    /// Counts a look that found a header.
    pub fn hit(&mut self)
        ensures { self.new ≡ hit self.old }
    {
        self.successful = self.successful.saturating_add(1);
    }

    /// Counts a look that found none.
    pub fn miss(&mut self)
        ensures { self.new ≡ miss self.old }
    {
        self.failed = self.failed.saturating_add(1);
    }

    /// Counts the looks that were counted apart.
    pub fn add(&mut self, more: &Looks)
        ensures { self.new ≡ raised more.now self.old }
    {
        self.successful = self.successful.saturating_add(more.successful);
        self.failed = self.failed.saturating_add(more.failed);
    }

    /// Counts the look that a step of a walk was; the end of a list is none.
    pub fn count<T, E>(&mut self, step: &Option<Result<T, E>>)
        ensures { self.new ≡ looked step.now self.old }
    {
        match step {
            None => {}
            Some(Ok(_)) => self.hit(),
            Some(Err(_)) => self.miss(),
        }
    }
}

impl PartialEq for Looks {
    ghost eq = { same_counts };

    ghost laws = { partial_equiv_from_equiv (decided same_counts counts_equality) };

    fn eq(&self, other: &Looks) -> bool {
        self.successful == other.successful && self.failed == other.failed
    }
}

impl Eq for Looks {
    ghost laws = { decided same_counts counts_equality };
}
