//! Whether lists of attributes are well formed, and the lists and next hops in their values. Nothing
//! takes memory but on the stack: next hops stand inside next hops.

ghost use Rattle.std.specs.Prelude.{◌≡◌, ◌<◌, [], true, false, length, IfOk, IfErr, IfSome, IfNone, IsTrue};
ghost use Rattle.{
  npr_base.specs.{Framing.{number_of}, Value.{Misshown, Shown, Shows}},
  npr_route.specs.Attribute.{HopFault, HopFront, HopHead},
  netlink_packet_route.specs.{
    NestLists.{AreHopsAt, HopsWrongAt, IsAttributeAt, IsListAt, ListFaultAt},
    Pending.{AreLeft, HopLeads, LeftLeads, LeftWrong, Pending},
    Nests.{holds_hops, reading_of, stands_apart},
  },
};

use crate::apart::check_apart;
use crate::nests::Nest;
use npr_base::{At, AttributeSet, DecodeError, Form, NlaBuffer, NlasIterator, read_form};
use npr_route::{NEXT_HOP_HEADER_SIZE, RTNH_ALIGNTO, RouteNextHopBuffer};
use std::marker::Model;

/// `RTA_MULTIPATH` of `linux/rtnetlink.h`.
const RTA_MULTIPATH: u16 = 9;

/// Whether a value of this number holds next hops.
fn holds_hops(set: AttributeSet, number: u16) -> bool
    ensures { result ≡ holds_hops set number }
{
    match set {
        AttributeSet::Route => number == RTA_MULTIPATH,
        _ => false,
    }
}

/// Whether a value is read in this form.
fn check_form(form: Form, value: &[u8], at: At) -> Result<(), DecodeError>
    ensures ok { IfOk result (λ _. (s : Shown) × Shows form value.now s) }
    ensures refused { IfErr result (λ e. Misshown form at value.now e) }
{
    match read_form(form, value, at) {
        Ok(_) => Ok(()),
        Err(refusal) => Err(refusal),
    }
}

/// Whether a value that has a reader of its own, and holds no next hops, is well formed.
fn check_reader(nest: Nest, item: &NlaBuffer<'_>) -> Result<(), DecodeError>
    ensures ok { stands_apart nest.set nest.context (number_of (item.now).kind) ≡ true → IfOk result (λ _. IsAttributeAt nest item.now) }
    ensures refused { stands_apart nest.set nest.context (number_of (item.now).kind) ≡ true → IfErr result (λ e. (reading_of nest).reading.Faulty item.now e) }
{
    match check_apart(nest, item) {
        Some(answer) => answer,
        None => Ok(()),
    }
}

/// The attributes of the first of these next hops, and the next hops behind it.
///
/// # Errors
/// Why none stands in front.
fn first_hop(hops: &[u8]) -> Result<(&[u8], &[u8]), DecodeError>
    ensures ok { IfOk result (λ s. (h : HopHead) × HopFront hops.now h s.0.now s.1.now) }
    ensures refused { IfErr result (λ e. HopFault hops.now e) }
{
    let length = RouteNextHopBuffer::new_checked(hops)?.length as usize;
    let whole = length.next_multiple_of(RTNH_ALIGNTO).min(hops.len());
    Ok((&hops[NEXT_HOP_HEADER_SIZE..length], &hops[whole..]))
}

/// What is left of a list.
#[derive(Drop)]
struct Left<'a> {
    nest: Nest,
    /// Next hops of the attribute in hand.
    hops: &'a [u8],
    /// The attributes behind it.
    rest: NlasIterator<'a>,
}

impl<'a> Model for Left<'a> {
    ghost Value = { Pending };

    ghost view = { λ l. record { nest = l.nest; hops = l.hops.now; rest = l.rest } };
}

impl<'a> Left<'a> {
    /// A list.
    fn list(nest: Nest, bytes: &'a [u8]) -> Self
        ensures { result ≡ record { nest = nest; hops = []; rest = bytes.now } }
    {
        Left {
            nest,
            hops: &[],
            rest: NlasIterator::new(bytes),
        }
    }

    /// Next hops.
    fn next_hops(nest: Nest, bytes: &'a [u8]) -> Self
        ensures { result ≡ record { nest = nest; hops = bytes.now; rest = [] } }
    {
        Left {
            nest,
            hops: bytes,
            rest: NlasIterator::new(&[]),
        }
    }

    /// Goes along the attributes, each checked, up to one with next hops, or to the end.
    #[cycle(checking)]
    fn reach_hops(&mut self) -> Result<(), DecodeError>
        ensures ok { IfOk result (λ _. LeftLeads self.old self.new) }
        ensures end { IfOk result (λ _. self.new.hops ≡ [] → AreLeft self.new) }
        ensures refused { IfErr result (λ e. LeftWrong self.old e) }
    {
        while self.hops.is_empty() {
            let Some(next) = self.rest.next() else {
                return Ok(());
            };
            let item = next?;
            if holds_hops(self.nest.set, item.kind()) {
                self.hops = item.value();
            } else {
                self.nest.check_attribute(&item)?;
            }
        }
        Ok(())
    }

    /// The attributes of the next hop, from the first with next hops of its own on.
    #[cycle(checking)]
    fn enter_hop(&mut self) -> Result<Left<'a>, DecodeError>
        ensures hop { IfOk result (λ inner. HopLeads self.old self.new inner) }
        ensures end { IfOk result (λ inner. inner.hops ≡ [] → AreLeft inner) }
        ensures refused { IfErr result (λ e. 0 < length self.old.hops → LeftWrong self.old e) }
    {
        let (attributes, behind) = first_hop(self.hops)?;
        self.hops = behind;
        let mut inner = Left::list(self.nest.of_next_hop(attributes), attributes);
        inner.reach_hops()?;
        Ok(inner)
    }

    /// The attributes of the first next hop with next hops of its own, from these on, or `None` at the
    /// end.
    #[cycle(checking)]
    fn next_nest(&mut self) -> Result<Option<Left<'a>>, DecodeError>
        ensures hop { IfOk result (λ found. IfSome found (λ inner. HopLeads self.old self.new inner)) }
        ensures end { IfOk result (λ found. IfNone found (AreLeft self.old)) }
        ensures refused { IfErr result (λ e. LeftWrong self.old e) }
    {
        self.reach_hops()?;
        while !self.hops.is_empty() {
            let inner = self.enter_hop()?;
            if !inner.hops.is_empty() {
                return Ok(Some(inner));
            }
            self.reach_hops()?;
        }
        Ok(None)
    }

    /// Whether there is such a next hop, which is put in place; if not, the answer is put.
    #[cycle(checking)]
    #[inline(never)]
    fn goes_on(&mut self, inner: &mut Left<'a>, answer: &mut Result<(), DecodeError>) -> bool
        ensures hop { IsTrue result → HopLeads self.old self.new inner.new }
        ensures ok { result ≡ false → IfOk answer.new (λ _. AreLeft self.old) }
        ensures refused { result ≡ false → IfErr answer.new (λ e. LeftWrong self.old e) }
    {
        match self.next_nest() {
            Ok(Some(found)) => {
                *inner = found;
                true
            }
            Ok(None) => {
                *answer = Ok(());
                false
            }
            Err(refusal) => {
                *answer = Err(refusal);
                false
            }
        }
    }

    /// Puts whether all is well formed. Next hops inside next hops call it again: a nest takes the
    /// stack of what is left of the next one, and no more.
    #[cycle(checking)]
    fn check(&mut self, answer: &mut Result<(), DecodeError>)
        ensures ok { IfOk answer.new (λ _. AreLeft self.old) }
        ensures refused { IfErr answer.new (λ e. LeftWrong self.old e) }
    {
        let mut inner = Left::list(self.nest, &[]);
        while self.goes_on(&mut inner, answer) {
            inner.check(answer);
            if answer.is_err() {
                return;
            }
        }
    }
}

impl Nest {
    /// Whether the bytes are a list of attributes of this name, and what stands in their values too.
    /// It takes no memory but on the stack, for next hops inside next hops.
    ///
    /// # Errors
    /// The first fault in reading order.
    #[cycle(checking)]
    pub fn check(self, bytes: &[u8]) -> Result<(), DecodeError>
        ensures ok { IfOk result (λ _. IsListAt self bytes.now) }
        ensures refused { IfErr result (λ e. ListFaultAt self bytes.now e) }
    {
        let mut walk = NlasIterator::new(bytes);
        while let Some(next) = walk.next() {
            let item = next?;
            self.check_attribute(&item)?;
        }
        Ok(())
    }

    /// Whether the value of an attribute of the list is well formed, and what stands in it too. It
    /// takes no memory but on the stack, for next hops inside next hops.
    ///
    /// # Errors
    /// The value's first fault in reading order.
    #[cycle(checking)]
    pub fn check_attribute(self, item: &NlaBuffer<'_>) -> Result<(), DecodeError>
        ensures ok { IfOk result (λ _. IsAttributeAt self item.now) }
        ensures refused { IfErr result (λ e. (reading_of self).reading.Faulty item.now e) }
    {
        let (at, form) = self.form(item.kind());
        let value = item.value();
        match form {
            Form::List(set, front) => {
                if value.len() < front {
                    return Err(DecodeError::HeaderTooShort {
                        got: value.len(),
                        want: front,
                    });
                }
                let outer = self.context.within(self.set);
                outer.inner(set, value).check(&value[front..])
            }
            Form::Inside => {
                if holds_hops(self.set, item.kind()) {
                    return self.check_hops(value);
                }
                check_reader(self, item)
            }
            _ => check_form(form, value, at),
        }
    }

    /// Whether the bytes are next hops, one after the other, in this list.
    #[cycle(checking)]
    fn check_hops(self, bytes: &[u8]) -> Result<(), DecodeError>
        ensures ok { IfOk result (λ _. AreHopsAt self bytes.now) }
        ensures refused { IfErr result (λ e. HopsWrongAt self bytes.now e) }
    {
        let mut left = Left::next_hops(self, bytes);
        let mut answer = Ok(());
        left.check(&mut answer);
        answer
    }
}
