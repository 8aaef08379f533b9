//! The walk over a list of attributes and the lists in it, each attribute shown by its row.

use crate::attribute::push_raw;
use crate::field::{Fields, ITEM, Word, Wording};
use crate::list::{Head, List, Seen, is_inside};
use crate::next_hop::push_encap_type;
use crate::own::push_beside;
use crate::peer::push_peer_header;
use crate::route::push_hop;
use crate::row::{How, Row, Rows};
use crate::tables::row_in;
use crate::traffic_action::push_order;
use crate::traffic_kind;
use crate::value::{is_hidden, push_plain, push_row};
use netlink_packet_route::framing::{AttributeSet, NlaBuffer, NlasIterator};
use netlink_packet_route::route::{NEXT_HOP_HEADER_SIZE, RTNH_ALIGNTO, RouteNextHopBuffer};
use netlink_packet_route::{MessageKind, Nest};

/// A next hop of a route, in a line of its own.
const NEXT_HOP: Word = &Wording(0, "nexthops", "\n\tnexthop");

/// What the protocol of a link says stands in an object of version 6.
const OF_INET6: Word = &Wording(1, "inet6", "");

/// What is shown of the attributes of a message whose header they do not rest on.
pub fn push_message(fields: &mut Fields, kind: MessageKind, message: &[u8]) {
    if let Some(list) = List::of_message(kind, message, Head::default()) {
        push_list(fields, list);
    }
}

/// What is shown of a list.
#[cycle(list)]
pub fn push_list(fields: &mut Fields, list: List<'_>) {
    push_beside(fields, list);
    for next in NlasIterator::new(list.bytes) {
        match next {
            Ok(item) => push_item(fields, list, &item),
            Err(_) => return,
        }
    }
}

/// Each attribute of a list as an object.
#[cycle(list)]
fn push_each(objects: &mut Fields, list: List<'_>) {
    for next in NlasIterator::new(list.bytes) {
        let Ok(item) = next else {
            return;
        };
        let mut inside = Fields::new(objects.manner);
        push_order(&mut inside, list, item.kind());
        push_item(&mut inside, list, &item);
        objects.object(ITEM, inside);
    }
}

/// What is shown of an attribute: one without a row stands as it is.
#[cycle(list)]
fn push_item<'a>(fields: &mut Fields, list: List<'a>, item: &NlaBuffer<'a>) {
    let Some(row) = row_in(list, item.kind()) else {
        return push_nameless(fields, list, item);
    };
    let Some(seen) = list.seen(item) else {
        return push_nameless(fields, list, item);
    };
    if is_list(row.how) {
        return push_nested(fields, list, row, &seen);
    }
    push_row(fields, list, row, &seen);
}

/// A list in an attribute.
#[cycle(list)]
fn push_nested<'a>(fields: &mut Fields, list: List<'a>, row: &'static Row, seen: &Seen<'a>) {
    if let (How::NextHops, None) = (row.how, list.head.to) {
        // Next hops inside a next hop, which no kernel makes.
        return push_raw(fields, seen.number, seen.bytes);
    }
    let mut inside = Fields::new(fields.manner);
    let head = push_front(&mut inside, list, row.how, seen);
    match (list.inside(seen), row.how) {
        (Some(inner), How::Flat) => return push_list(fields, inner),
        (Some(inner), How::Alone(_, _)) if is_of_6(inner.nest) => {
            let mut of_6 = Fields::new(fields.manner);
            push_list(&mut of_6, inner);
            inside.object(OF_INET6, of_6)
        }
        (Some(inner), How::Objects(_, _, _)) => push_each(&mut inside, inner),
        (Some(inner), _) => push_list(&mut inside, List { head, ..inner }),
        (None, How::NextHops) => push_hops(&mut inside, list, seen.bytes),
        (None, _) => {}
    }
    put_nested(fields, row, seen, inside);
    fields.hide_if(is_hidden(list, row.line, &seen.value));
}

/// The next hops of a route, each as an object.
#[cycle(list)]
fn push_hops(objects: &mut Fields, list: List<'_>, bytes: &[u8]) {
    let Some(depth) = list.depth.checked_sub(1) else {
        return;
    };
    let mut left = bytes;
    for _ in 0..bytes.len() {
        let Some((hop, attributes, behind)) = first_hop(left) else {
            return;
        };
        let mut inside = Fields::new(objects.manner);
        push_hop(&mut inside, &hop);
        let inner = List {
            nest: list.nest.of_next_hop(attributes),
            bytes: attributes,
            head: Head::default(),
            depth,
        };
        push_list(&mut inside, inner);
        objects.object(NEXT_HOP, inside);
        left = behind;
    }
}

/// The first of these next hops, its attributes, and what stands behind it.
fn first_hop(bytes: &[u8]) -> Option<(RouteNextHopBuffer, &[u8], &[u8])> {
    let hop = RouteNextHopBuffer::new_checked(bytes).ok()?;
    let length = usize::from(hop.length);
    let whole = length.next_multiple_of(RTNH_ALIGNTO).min(bytes.len());
    Some((
        hop,
        bytes.get(NEXT_HOP_HEADER_SIZE..length)?,
        bytes.get(whole..)?,
    ))
}

/// What stands in front of a list in its object. Answers what the header says on which values rest.
fn push_front(inside: &mut Fields, list: List<'_>, how: How, seen: &Seen<'_>) -> Head {
    match (how, list.nest.set) {
        (How::Peer, _) => return push_peer_header(inside, seen.bytes),
        (How::Object, AttributeSet::NextHop) => push_encap_type(inside, list, seen.number),
        (How::Data(_), AttributeSet::Tc) => traffic_kind::push_front(inside, list, seen),
        _ => {}
    }
    list.head
}

/// Whether version 6 says a list.
fn is_of_6(nest: Nest) -> bool {
    matches!(nest.set, AttributeSet::AfSpecInet6)
}

/// Whether lists are shown so.
fn is_list(how: How) -> bool {
    matches!(
        how,
        How::Object
            | How::Data(_)
            | How::Alone(_, _)
            | How::Flat
            | How::Items(_, _, _)
            | How::Objects(_, _, _)
            | How::Peer
            | How::NextHops
    )
}

/// The pieces of a list.
fn put_nested(fields: &mut Fields, row: &'static Row, seen: &Seen<'_>, inside: Fields<'_>) {
    let word = row.word;
    match (row.how, is_inside(&seen.value)) {
        (How::Items(before, between, behind), _) => {
            fields.list_in(word, inside, (before, between, behind))
        }
        (How::Objects(before, between, behind), _) => {
            fields.list_in(word, inside, (before, between, behind))
        }
        (How::Alone(before, behind), true) => {
            let mut objects = Fields::new(fields.manner);
            objects.object(ITEM, inside);
            fields.list_in(word, objects, (before, " ", behind))
        }
        (How::Alone(_, _), _) => {
            push_raw(fields, seen.kind, seen.bytes);
            fields.hide_if(seen.bytes.is_empty())
        }
        (How::NextHops, _) => fields.list(word, inside, " "),
        (How::Data(other), false) if inside.is_empty() => fields.bytes(other, seen.bytes),
        _ => fields.object(word, inside),
    }
}

/// The row of this number.
fn row_of(rows: Rows, number: u16) -> Option<&'static Row> {
    rows.iter().find(|row| row.number == number)
}

/// What is shown by these rows of attributes that hold no lists and have no way of their own, but for
/// those without a row.
pub fn push_rows(fields: &mut Fields, list: List<'_>, rows: Rows) {
    for next in NlasIterator::new(list.bytes) {
        let Ok(item) = next else {
            return;
        };
        if let Some(row) = row_of(rows, item.kind()) {
            push_seen(fields, list, row, &item);
        }
    }
}

/// Those without a row among these, as they are. Answers whether anything stands in one.
pub fn push_unknown_rows(fields: &mut Fields, list: List<'_>, rows: Rows) -> bool {
    let mut is_told = false;
    for next in NlasIterator::new(list.bytes) {
        let Ok(item) = next else {
            return is_told;
        };
        if row_of(rows, item.kind()).is_none() {
            push_nameless(fields, list, &item);
            is_told = is_told || !item.value().is_empty();
        }
    }
    is_told
}

/// The same, and those without a row as they are.
pub fn push_all_rows(fields: &mut Fields, list: List<'_>, rows: Rows) {
    for next in NlasIterator::new(list.bytes) {
        let Ok(item) = next else {
            return;
        };
        match row_of(rows, item.kind()) {
            Some(row) => push_seen(fields, list, row, &item),
            None => push_nameless(fields, list, &item),
        }
    }
}

/// An attribute by its row.
fn push_seen<'a>(fields: &mut Fields, list: List<'a>, row: &'static Row, item: &NlaBuffer<'a>) {
    match list.seen(item) {
        Some(seen) => push_plain(fields, list, row, &seen),
        None => push_nameless(fields, list, item),
    }
}

/// An attribute that nobody knows. Padding has no words where such a list may have some.
pub fn push_nameless(fields: &mut Fields, list: List<'_>, item: &NlaBuffer<'_>) {
    push_raw(fields, item.raw_kind(), item.value());
    fields.hide_if(hides_padding(list.nest) && item.value().is_empty());
}

/// Whether a line has nothing of an attribute in such a list that nobody knows and that is empty.
fn hides_padding(nest: Nest) -> bool {
    match nest.set {
        AttributeSet::Address
        | AttributeSet::Rule
        | AttributeSet::Route
        | AttributeSet::Neighbour
        | AttributeSet::Metric
        | AttributeSet::Encap
        | AttributeSet::Opt
        | AttributeSet::Vxlan
        | AttributeSet::Erspan
        | AttributeSet::NextHop
        | AttributeSet::NextHopGroupStats
        | AttributeSet::NextHopGroupStatsEntry
        | AttributeSet::Nsid
        | AttributeSet::Netconf
        | AttributeSet::AddressLabel
        | AttributeSet::Prefix => false,
        _ => true,
    }
}
