//! Reading of next hops, by a loop and a stack: they alone nest without bound.

ghost use Rattle.std.specs.Prelude.{◌≡◌, ◌≢◌, ◌<◌, ◌+◌, ◌++◌, ℕ, List, [], ◌∷◌, true, false, IsTrue, length, map, IfOk, IfErr, OnOk, OnErr, IsErrOf, MatchOption};
ghost use Rattle.{
  npr_base.specs.{declared.refusal.DecodeError.TheVariants.{OutOfMemory}, Counts.{AddsAtMost, SawEach, hit, miss}, Looks.{Answered}},
  npr_route.specs.{
    Attribute.{HopHead, HopFront, HopFault, Hop, IsHop, HopWrong, Hops, AreHops, HopsWrong, hops_members},
    AttributeLooks.{HopsTake},
    AttributeView.{hop_of, hops_of},
    FlatAttribute.{Context},
    Governing.{Searches},
    NextHopHeader.{head_in},
    Ahead.{SoughtIn},
    Reader.{Tied, Opens, account, GoesOn, Ends, Ended},
    ReaderLooks.{Follows, Finishes},
  },
};

use crate::attribute::{Context, RTA_MULTIPATH, RouteAttribute};
use crate::list::governing_type;
use crate::next_hop_buffer::{NEXT_HOP_HEADER_SIZE, RTNH_ALIGNTO, RouteNextHopBuffer};
use crate::next_hops::RouteNextHop;
use crate::rows::push_flat;
use bitflags::Flags;
use npr_base::{DecodeError, Looks, NlasIterator, ParseableParametrized, make_room};
use npr_encapsulation::RouteLwEnCapType;
use npr_route_values::RouteNextHopFlags;
use std::alloc::Global;
use std::mem;

/// A list of next hops of which one is open.
#[derive(Drop)]
struct Level<'a> {
    /// The context of the list that holds the next hops.
    context: Context,
    /// The next hops before the open one.
    next_hops: Vec<RouteNextHop>,
    /// The header of the open one.
    header: RouteNextHopBuffer,
    /// The type that governs its attributes.
    encap_type: RouteLwEnCapType,
    /// Its attributes that were read.
    attributes: Vec<RouteAttribute>,
    /// Those that were not.
    walk: NlasIterator<'a>,
    /// The bytes behind the open one and its padding.
    hops_rest: &'a [u8],
}

/// The open list, and those that wait for it, the outermost first: each at an attribute whose value
/// is the list of the next.
#[derive(Drop)]
struct Reader<'a> {
    level: Level<'a>,
    stack: Vec<Level<'a>>,
}

/// The next hops that the bytes are, one after the other, each at a multiple of four bytes, in the
/// context of the list that holds them: the attributes of each are read under the first type among
/// them, or else under that of the context. Each look at a header is counted.
///
/// # Errors
/// `OutOfMemory` where memory is refused, and else the first fault in reading order.
#[inline(never)]
pub fn read_next_hops(
    alloc: Global,
    bytes: &[u8],
    context: Context,
    looks: &mut Looks,
) -> Result<Vec<RouteNextHop>, DecodeError>
    // What is read is what the bytes mean.
    ensures ok { IfOk result (λ v. AreHops context bytes.now (hops_of (map hop_of v.items))) }
    // A refusal is the first fault.
    ensures refused { IfErr result (λ e. e ≢ OutOfMemory → HopsWrong context bytes.now e) }
    // Then the bytes mean nothing.
    ensures none { IfErr result (λ e. e ≢ OutOfMemory → (hs : Hops) → AreHops context bytes.now hs → ⊥) }
    // Memory is taken behind a first whole header alone.
    ensures memory { IsErrOf result OutOfMemory → (h : HopHead) × (inside : List ℕ) × (rest : List ℕ) × HopFront bytes.now h inside rest }
    // The looks are those that the bytes take.
    ensures exact { Answered result → HopsTake context bytes.now looks.old looks.new }
    ensures bounded { AddsAtMost looks.old looks.new (length bytes.now) }
    ensures counted { IfOk result (λ v. SawEach looks.old looks.new (hops_members (hops_of (map hop_of v.items)))) }
{
    read_next_hops_body(alloc, bytes, context, looks)
}

fn read_next_hops_body(
    alloc: Global,
    bytes: &[u8],
    context: Context,
    looks: &mut Looks,
) -> Result<Vec<RouteNextHop>, DecodeError>
    ensures ok { IfOk result (λ v. AreHops context bytes.now (hops_of (map hop_of v.items))) }
    ensures refused { IfErr result (λ e. e ≢ OutOfMemory → HopsWrong context bytes.now e) }
    ensures memory { IsErrOf result OutOfMemory → (h : HopHead) × (inside : List ℕ) × (rest : List ℕ) × HopFront bytes.now h inside rest }
    ensures exact { Answered result → HopsTake context bytes.now looks.old looks.new }
    ensures bounded { AddsAtMost looks.old looks.new (length bytes.now) }
    ensures counted { IfOk result (λ v. SawEach looks.old looks.new (hops_members (hops_of (map hop_of v.items)))) }
{
    if bytes.is_empty() {
        return Ok(Vec::new(alloc));
    }
    let level = open(alloc, bytes, context, looks)?;
    let mut reader = Reader {
        level,
        stack: Vec::new(alloc),
    };
    loop {
        if let Some(next_hops) = advance(alloc, &mut reader, looks)? {
            return Ok(next_hops);
        }
    }
}

/// The header of the next hop in front, its attributes, and what follows it and its padding.
#[inline(always)]
fn open_hop<'a>(
    bytes: &'a [u8],
    looks: &mut Looks,
) -> Result<(RouteNextHopBuffer, &'a [u8], &'a [u8]), DecodeError>
    ensures ok { IfOk result (λ r. HopFront bytes.now (head_in r.0) r.1.now r.2.now) }
    ensures hits { OnOk result (looks.new ≡ hit looks.old) }
    ensures refused { IfErr result (λ e. (e ≢ OutOfMemory) × HopFault bytes.now e) }
    ensures misses { OnErr result (looks.new ≡ miss looks.old) }
{
    if let Err(fault) = RouteNextHopBuffer::new_checked(bytes) {
        looks.miss();
        return Err(fault);
    }
    let header = RouteNextHopBuffer::in_front(bytes);
    looks.hit();
    let end = header.length as usize;
    let next = end.next_multiple_of(RTNH_ALIGNTO).min(bytes.len());
    Ok((header, &bytes[NEXT_HOP_HEADER_SIZE..end], &bytes[next..]))
}

/// The list in the bytes, with its first next hop open.
#[inline(always)]
fn open<'a>(
    alloc: Global,
    bytes: &'a [u8],
    context: Context,
    looks: &mut Looks,
) -> Result<Level<'a>, DecodeError>
    ensures ok { IfOk result (λ l. Opens context bytes.now [] l) }
    ensures searched { IfOk result (λ l. Searches context.2 l.walk l.encap_type (hit looks.old) looks.new) }
    ensures sought { IfOk result (λ l. SoughtIn l.walk looks.old looks.new) }
    ensures refused { IfErr result (λ e. (e ≢ OutOfMemory) × HopFault bytes.now e) }
    ensures misses { OnErr result (looks.new ≡ miss looks.old) }
{
    let mut level = Level {
        context,
        next_hops: Vec::new(alloc),
        header: RouteNextHopBuffer {
            length: 0,
            flags: 0,
            hops: 0,
            interface_index: 0,
        },
        encap_type: context.2,
        attributes: Vec::new(alloc),
        walk: NlasIterator::new(&[]),
        hops_rest: bytes,
    };
    open_next(&mut level, looks)?;
    Ok(level)
}

/// Opens the next hop in front of the rest, behind those that were read: its attributes are looked
/// through for the type that governs them.
#[inline(always)]
fn open_next(level: &mut Level<'_>, looks: &mut Looks) -> Result<(), DecodeError>
    requires { level.old.attributes.items ≡ [] }
    ensures ok { IfOk result (λ _. Opens level.old.context level.old.hops_rest.now level.old.next_hops.items level.new) }
    ensures searched { IfOk result (λ _. Searches level.old.context.2 level.new.walk level.new.encap_type (hit looks.old) looks.new) }
    ensures sought { IfOk result (λ _. SoughtIn level.new.walk looks.old looks.new) }
    ensures refused { IfErr result (λ e. (e ≢ OutOfMemory) × HopFault level.old.hops_rest.now e) }
    ensures misses { OnErr result (looks.new ≡ miss looks.old) }
{
    let (header, inside, hops_rest) = open_hop(level.hops_rest, looks)?;
    level.header = header;
    level.encap_type = governing_type(inside, level.context.2, looks);
    level.walk = NlasIterator::new(inside);
    level.hops_rest = hops_rest;
    Ok(())
}

/// Reads an attribute of the open next hop, opens the list that it holds, or closes the next hop: the
/// next hops of the outermost list, once all of them were read.
fn advance<'a>(
    alloc: Global,
    reader: &mut Reader<'a>,
    looks: &mut Looks,
) -> Result<Option<Vec<RouteNextHop>>, DecodeError>
    ensures ok { IfOk result (λ done. MatchOption done (GoesOn reader.old reader.new looks.old looks.new) (λ v. Ends reader.old v.items looks.old looks.new)) }
    ensures refused { IfErr result (λ e. e ≢ OutOfMemory → (c : Context) (bytes : List ℕ) → Tied c bytes reader.old → HopsWrong c bytes e) }
    ensures follows { IfOk result (λ done. MatchOption done (Follows reader.old reader.new looks.old looks.new) (λ _. Finishes reader.old true looks.old looks.new)) }
    ensures stops { IfErr result (λ e. e ≢ OutOfMemory → Finishes reader.old false looks.old looks.new) }
    ensures ended { OnErr result (Ended looks.old looks.new (account reader.old) (length reader.old.level.walk)) }
{
    let Some(next) = reader.level.walk.next_counted(looks) else {
        return close(alloc, reader, looks);
    };
    let item = next?;
    let level = &mut reader.level;
    if item.kind() == RTA_MULTIPATH && !item.value().is_empty() {
        let inside = (level.context.0, level.context.1, level.encap_type);
        let inner = open(alloc, item.value(), inside, looks)?;
        enter(reader, inner)?;
        return Ok(None);
    }
    make_room(
        &mut level.attributes,
        level.walk.rest().len().saturating_add(8),
    )?;
    push_flat(
        &mut level.attributes,
        alloc,
        level.context,
        level.encap_type,
        &item,
        looks,
    )?;
    Ok(None)
}

/// Opens a list inside the open one, which waits for it.
fn enter<'a>(reader: &mut Reader<'a>, inner: Level<'a>) -> Result<(), DecodeError>
    ensures ok { IfOk result (λ _. (reader.new.level ≡ inner.entry) × (reader.new.stack.items ≡ reader.old.stack.items ++ reader.old.level ∷ [])) }
    ensures refused { IfErr result (λ e. e ≡ OutOfMemory) }
{
    let outer = mem::replace(&mut reader.level, inner);
    reader.stack.push(outer)?;
    Ok(())
}

/// Goes on with the last list that waits, if one does. It and `enter` are functions of their own, for
/// what a function keeps on the stack, here a whole level, is cleared at its entry.
fn leave(reader: &mut Reader<'_>) -> bool
    ensures waits { IsTrue result → reader.old.stack.items ≡ reader.new.stack.items ++ reader.new.level ∷ [] }
    ensures none { (result ≡ false) → reader.old.stack.items ≡ [] }
{
    match reader.stack.pop() {
        Some(outer) => {
            reader.level = outer;
            true
        }
        None => false,
    }
}

/// Closes the open next hop, all of whose attributes were read: the next one of its list is opened,
/// or the list that waits goes on.
fn close<'a>(
    alloc: Global,
    reader: &mut Reader<'a>,
    looks: &mut Looks,
) -> Result<Option<Vec<RouteNextHop>>, DecodeError>
    requires { reader.old.level.walk ≡ [] }
    ensures ok { IfOk result (λ done. MatchOption done (GoesOn reader.old reader.new looks.old looks.new) (λ v. Ends reader.old v.items looks.old looks.new)) }
    ensures refused { IfErr result (λ e. e ≢ OutOfMemory → (c : Context) (bytes : List ℕ) → Tied c bytes reader.old → HopsWrong c bytes e) }
    ensures follows { IfOk result (λ done. MatchOption done (Follows reader.old reader.new looks.old looks.new) (λ _. Finishes reader.old true looks.old looks.new)) }
    ensures stops { IfErr result (λ e. e ≢ OutOfMemory → Finishes reader.old false looks.old looks.new) }
    ensures ended { OnErr result (Ended looks.old looks.new (account reader.old) (length reader.old.level.walk)) }
{
    let level = &mut reader.level;
    make_room(
        &mut level.next_hops,
        level.hops_rest.len().saturating_add(8),
    )?;
    let attributes = mem::replace(&mut level.attributes, Vec::new(alloc));
    level.next_hops.push(RouteNextHop {
        flags: RouteNextHopFlags::from_bits_retain(level.header.flags),
        hops: level.header.hops,
        interface_index: level.header.interface_index,
        attributes,
    })?;
    if !level.hops_rest.is_empty() {
        open_next(level, looks)?;
        return Ok(None);
    }
    let next_hops = mem::replace(&mut level.next_hops, Vec::new(alloc));
    if !leave(reader) {
        return Ok(Some(next_hops));
    }
    reader
        .level
        .attributes
        .push(RouteAttribute::MultiPath(next_hops))?;
    Ok(None)
}

impl<'a> ParseableParametrized<&'a [u8], Context> for RouteNextHop {
    ghost parses = { λ context bytes h. IsHop context bytes.now (hop_of h) };

    ghost misparses = { λ context bytes e. HopWrong context bytes.now e };

    /// The next hop in the first bytes, as many as its length says; what follows isn't looked at.
    ///
    /// # Errors
    /// `OutOfMemory` where memory is refused, and else the first fault in reading order.
    fn parse_with_param(
        alloc: Global,
        bytes: &'a [u8],
        context: Context,
    ) -> Result<Self, DecodeError>
        // What is read is what the bytes mean.
        ensures ok { IfOk result (λ h. IsHop context bytes.now (hop_of h)) }
        // A refusal is the first fault.
        ensures refused { IfErr result (λ e. e ≢ OutOfMemory → HopWrong context bytes.now e) }
        // Then the bytes mean nothing.
        ensures none { IfErr result (λ e. e ≢ OutOfMemory → (h : Hop) → IsHop context bytes.now h → ⊥) }
        // Memory is taken behind a whole header alone.
        ensures memory { IsErrOf result OutOfMemory → (h : HopHead) × (inside : List ℕ) × (rest : List ℕ) × HopFront bytes.now h inside rest }
    {
        parse_with_param_body(alloc, bytes, context)
    }
}

fn parse_with_param_body(
    alloc: Global,
    bytes: &[u8],
    context: Context,
) -> Result<RouteNextHop, DecodeError>
    ensures ok { IfOk result (λ h. IsHop context bytes.now (hop_of h)) }
    ensures refused { IfErr result (λ e. e ≢ OutOfMemory → HopWrong context bytes.now e) }
    ensures memory { IsErrOf result OutOfMemory → (h : HopHead) × (inside : List ℕ) × (rest : List ℕ) × HopFront bytes.now h inside rest }
{
    let header = RouteNextHopBuffer::new_checked(bytes)?;
    let whole = &bytes[..header.length as usize];
    let mut hops = read_next_hops(alloc, whole, context, &mut Looks::new())?;
    match hops.pop() {
        Some(hop) => Ok(hop),
        None => unreachable!(),
    }
}
