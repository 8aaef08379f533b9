//! Lists of attributes, for any family.

ghost use Rattle.std.specs.Prelude.{◌≡◌, ◌≢◌, ◌≤◌, ◌<◌, ℕ, List, [], None, length, map, min, ◌+◌, ◌/◌, IfOk, IfErr, IsErrOf, OnOk, OnErr, vec_capacity};
ghost use Rattle.npr_base.specs.{
  Counts.{AddsAtMost, SawEach},
  Looks.{Answered, ListLooks},
  Framing.{Item, Front, Writes},
  Family.{shaped_item, shaped_unfit, written_by, unfit_by},
  Walk.{Walked},
  Lists.{ReadsList, FirstFault, checked, list_unfit, list_members, encodings, overlong},
  declared.refusal.DecodeError.TheVariants.{OutOfMemory},
};

use crate::attribute::Attribute;
use crate::framing::NlasIterator;
use crate::looks::Looks;
use crate::refusal::{DecodeError, EmitError};
use crate::traits::{Emitable, Nla, write_attribute};
use std::alloc::{AllocError, Global};
use std::mem;

/// The attributes that the bytes are cut into, in order, each read in the context.
///
/// # Errors
/// `OutOfMemory` where memory is refused, and else the first fault in reading order.
pub fn parse_list<A: Attribute>(
    alloc: Global,
    context: A::Context,
    bytes: &[u8],
    looks: &mut Looks,
) -> Result<Vec<A>, DecodeError>
    // What is read is what the bytes mean.
    ensures ok { IfOk result (λ v. ReadsList (A.family.reading context).Reads bytes.now (map A.family.meaning v.items)) }
    // A refusal is the first fault.
    ensures refused { IfErr result (λ e. e ≢ OutOfMemory → FirstFault (A.family.reading context).Reads (A.family.reading context).Faulty bytes.now e) }
    // Then the bytes mean nothing.
    ensures none { IfErr result (λ e. e ≢ OutOfMemory → (xs : List A.family.Meaning) → ReadsList (A.family.reading context).Reads bytes.now xs → ⊥) }
    // Memory is taken behind a first whole attribute alone.
    ensures memory { IsErrOf result OutOfMemory → (x : Item) × (rest : List ℕ) × Front bytes.now x rest }
    // The looks are those that the bytes take.
    ensures exact { Answered result → ListLooks (A.family.reading context).Reads (A.family.reading context).Faulty (A.family.reading context).looks.Takes bytes.now looks.old looks.new }
    // The looks and the attributes passed are together at most what the bytes passed allow.
    ensures walked { Walked bytes.now looks.old looks.new }
    ensures bounded { AddsAtMost looks.old looks.new (length bytes.now) }
    ensures counted { IfOk result (λ v. SawEach looks.old looks.new (list_members A.family.writing.members (map A.family.meaning v.items))) }
{
    let mut found = Vec::new(alloc);
    fill_list(&mut found, alloc, context, bytes, looks)?;
    Ok(found)
}

/// Before the first item of a list of so many bytes, where the list has no memory: room for just as
/// many as the bytes hold of those of 8 bytes, and for 16 at most, so that a list of a real message
/// takes memory once.
///
/// # Errors
/// `AllocError` where memory is refused.
#[inline(always)]
pub fn make_room<A: Drop>(found: &mut Vec<A>, len: usize) -> Result<(), AllocError>
    ensures items { found.new.items ≡ found.old.items }
    // There is just this room where there was none,
    ensures room { OnOk result (vec_capacity found.old ≡ 0 → vec_capacity found.new ≡ min (len / 8) 16) }
    // room that was there stays as it is,
    ensures kept { vec_capacity found.old ≢ 0 → (result ≡ Ok tt) × (vec_capacity found.new ≡ vec_capacity found.old) }
    // and memory is wanted only where there was none and some is needed.
    ensures memory { OnErr result ((vec_capacity found.old ≡ 0) × (0 < min (len / 8) 16)) }
{
    if found.capacity() != 0 {
        return Ok(());
    }
    found.reserve_exact((len / 8).min(16))
}

/// `parse_list` into a list, whose room is used again. Asks that the list is empty.
///
/// # Errors
/// `OutOfMemory` where memory is refused, and else the first fault in reading order. The list is empty
/// then, and without room.
///
/// # Panics
/// May panic where it is not as asked.
pub fn fill_list<A: Attribute>(
    list: &mut Vec<A>,
    alloc: Global,
    context: A::Context,
    bytes: &[u8],
    looks: &mut Looks,
) -> Result<(), DecodeError>
    requires { list.old.items ≡ [] }
    // What is read is what the bytes mean.
    ensures ok { IfOk result (λ _. ReadsList (A.family.reading context).Reads bytes.now (map A.family.meaning list.new.items)) }
    // A refusal is the first fault.
    ensures refused { IfErr result (λ e. e ≢ OutOfMemory → FirstFault (A.family.reading context).Reads (A.family.reading context).Faulty bytes.now e) }
    // Memory is taken behind a first whole attribute alone.
    ensures memory { IsErrOf result OutOfMemory → (x : Item) × (rest : List ℕ) × Front bytes.now x rest }
    // The looks are those that the bytes take.
    ensures exact { Answered result → ListLooks (A.family.reading context).Reads (A.family.reading context).Faulty (A.family.reading context).looks.Takes bytes.now looks.old looks.new }
    // The looks and the attributes passed are together at most what the bytes passed allow.
    ensures walked { Walked bytes.now looks.old looks.new }
    ensures counted { IfOk result (λ _. SawEach looks.old looks.new (list_members A.family.writing.members (map A.family.meaning list.new.items))) }
{
    // A list of the caller's would be read and written in memory at each attribute.
    let mut found = mem::replace(list, Vec::new(alloc));
    let mut walk = NlasIterator::new(bytes);
    while let Some(next) = walk.next_counted(looks) {
        let item = next?;
        make_room(&mut found, bytes.len())?;
        A::read_onto(&mut found, alloc, context, &item, looks)?;
    }
    *list = found;
    Ok(())
}

/// The length of a list, from the sum of its members' lengths. They are summed in 128 bits, which no
/// list fills, so that nothing is asked for each.
///
/// # Errors
/// `Total` where no `usize` holds it.
#[inline(always)]
pub fn total_len(sum: u128) -> Result<usize, EmitError>
    ensures { result ≡ checked (overlong sum) sum }
{
    usize::try_from(sum).map_err(|_| EmitError::Total)
}

fn check_list_body<A: Nla>(list: &[A]) -> Result<usize, EmitError>
    ensures { result ≡ checked (list_unfit (shaped_unfit A.shape) (shaped_item A.shape) list.now) (length (encodings (shaped_item A.shape) list.now)) }
{
    let mut total = 0u128;
    for x in list {
        total += x.check()? as u128;
    }
    total_len(total)
}

fn write_list_body<A: Nla>(list: &[A], out: &mut [u8]) -> usize
    requires fits { list_unfit (shaped_unfit A.shape) (shaped_item A.shape) list.now ≡ None }
    requires room { length (encodings (shaped_item A.shape) list.now) ≤ length out.old }
    ensures len { result ≡ length (encodings (shaped_item A.shape) list.now) }
    ensures after { Writes out.old out.new (encodings (shaped_item A.shape) list.now) }
{
    let mut at = 0usize;
    for x in list {
        at += write_attribute(x, &mut out[at..]);
    }
    at
}

/// The length of the encodings in bytes, or the first cause why there are none: the first member
/// that can't be written, or `Total`.
pub fn check_list<A: Attribute>(list: &[A]) -> Result<usize, EmitError>
    ensures { result ≡ checked (list_unfit (unfit_by A.family.writing) (written_by A.family.writing) (map A.family.meaning list.now)) (length (encodings (written_by A.family.writing) (map A.family.meaning list.now))) }
{
    check_list_body(list)
}

/// `emit_list`, with the length of what is written. Asks what that does.
///
/// # Panics
/// May panic where it is not as asked.
pub fn write_list<A: Attribute>(list: &[A], out: &mut [u8]) -> usize
    requires fits { list_unfit (unfit_by A.family.writing) (written_by A.family.writing) (map A.family.meaning list.now) ≡ None }
    requires room { length (encodings (written_by A.family.writing) (map A.family.meaning list.now)) ≤ length out.old }
    ensures len { result ≡ length (encodings (written_by A.family.writing) (map A.family.meaning list.now)) }
    ensures after { Writes out.old out.new (encodings (written_by A.family.writing) (map A.family.meaning list.now)) }
{
    write_list_body(list, out)
}

/// Writes the encodings one after the other at the front of the slice, and leaves the rest. Asks
/// that `check_list` accepts, and room for the length that it answers. It is for callers: the library
/// writes by `write_list`.
///
/// # Panics
/// May panic where it is not as asked.
pub fn emit_list<A: Attribute>(list: &[A], out: &mut [u8])
    requires fits { list_unfit (unfit_by A.family.writing) (written_by A.family.writing) (map A.family.meaning list.now) ≡ None }
    requires room { length (encodings (written_by A.family.writing) (map A.family.meaning list.now)) ≤ length out.old }
    ensures { Writes out.old out.new (encodings (written_by A.family.writing) (map A.family.meaning list.now)) }
{
    write_list(list, out);
}

/// Equal values, in their order.
///
/// # Errors
/// `AllocError` where memory is refused; an empty list takes none.
pub fn clone_list<A: Attribute>(alloc: Global, list: &[A]) -> Result<Vec<A>, AllocError>
    ensures ok { IfOk result (λ v. map A.family.meaning v.items ≡ map A.family.meaning list.now) }
    ensures memory { OnErr result (0 < length list.now) }
{
    let mut copies = Vec::new(alloc);
    for x in list {
        copies.push(x.try_clone(alloc)?)?;
    }
    Ok(copies)
}
