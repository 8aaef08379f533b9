//! What is shown of a link.

use crate::field::{Fields, ITEM, Word, Wording};
use crate::link_names::{LINK_FLAGS, LINK_TYPES};
use crate::list::{Head, List, small};
use crate::value::push_bits;
use crate::walk::push_list;
use netlink_packet_route::link::LinkMessageBuffer;
use netlink_packet_route::{AddressFamily, MessageKind};
use std::fmt;

const INDEX: Word = &Wording(2, "ifindex", "");

const NAME: Word = &Wording(3, "ifname", "");

/// The name that a message before this one told.
const INTERFACE: Word = &Wording(3, "dev", "");

const LINK: Word = &Wording(3, "link", "link ");

const LINK_INDEX: Word = &Wording(3, "link_index", "link ");

const FLAGS: Word = &Wording(4, "flags", "");

const TYPE: Word = &Wording(20, "link_type", "\n    link/");

const FAMILY: Word = &Wording(90, "family", "family ");

const CHANGE: Word = &Wording(91, "change", "change ");

/// The flags of a link that is up, of one with another end, and of one that runs (`IFF_*`).
const IFF_UP: u32 = 0x1;

const IFF_POINTOPOINT: u32 = 0x10;

const IFF_RUNNING: u32 = 0x40;

/// Attributes that stand in front of others (`IFLA_*` of `linux/if_link.h`).
const IFLA_IFNAME: u16 = 3;

const IFLA_LINK: u16 = 5;

const IFLA_LINK_NETNSID: u16 = 37;

/// The link under another, as an attribute tells it.
#[derive(Clone, Copy)]
enum Under {
    /// Nothing is told.
    Untold,
    /// There is none.
    Nothing,
    /// That of this number.
    Here(u32),
    /// That of this number, in another network namespace.
    Elsewhere(u32),
}

/// The same behind the name of a link.
#[derive(Clone, Copy)]
enum Behind<'a> {
    /// This text.
    Text(&'static str),
    /// A name.
    Name(&'a str),
    /// A number.
    Number(u32),
}

impl fmt::Display for Behind<'_> {
    fn fmt<W: fmt::Write>(&self, f: &mut fmt::Formatter<W>) -> fmt::Result {
        match *self {
            Behind::Text(text) => write!(f, "{text}"),
            Behind::Name(name) => write!(f, "@{name}"),
            Behind::Number(index) => write!(f, "@if{index}"),
        }
    }
}

/// What is shown of a link.
pub fn push_link(fields: &mut Fields, bytes: &[u8]) {
    let Ok(header) = LinkMessageBuffer::parse(bytes) else {
        return;
    };
    let head = Head {
        of_type: header.link_layer_type,
        is_to_peer: header.flags & IFF_POINTOPOINT != 0,
        ..Head::default()
    };
    let Some(list) = List::of_message(MessageKind::Link, bytes, head) else {
        return;
    };
    let under = under_of(list);
    push_index(fields, header.link_index);
    push_name(fields, header.link_index, under, list);
    push_flags(fields, header.flags, under);
    push_header(fields, &header);
    push_list(fields, list);
}

/// The link under that which has these attributes.
fn under_of(list: List<'_>) -> Under {
    let Some(seen) = list.first(IFLA_LINK) else {
        return Under::Untold;
    };
    match small(&seen.value) {
        0 => Under::Nothing,
        index if list.has(IFLA_LINK_NETNSID) => Under::Elsewhere(index),
        index => Under::Here(index),
    }
}

fn push_index(fields: &mut Fields, index: u32) {
    let index = index.cast_signed();
    let text = format!(in fields.manner.alloc; "{index}:");
    fields.written(INDEX, index, text);
}

/// The name, behind which a line has the link under it: that which the message tells, or else that
/// which was told before.
fn push_name(fields: &mut Fields, index: u32, under: Under, list: List<'_>) {
    let alloc = fields.manner.alloc;
    let behind = behind_of(fields, under);
    let (word, name) = match (list.name(IFLA_IFNAME), fields.manner.interface(index)) {
        (Some(name), _) => (NAME, name),
        (None, Some(name)) => (INTERFACE, name),
        (None, None) => return push_under(fields, under),
    };
    let text = format!(in alloc; "{name}{behind}:");
    fields.text_shown(word, &name, text);
    push_under(fields, under);
    fields.hide_if(!matches!(under, Under::Untold));
}

fn push_under(fields: &mut Fields, under: Under) {
    match under {
        Under::Untold => {}
        Under::Nothing => fields.mark(LINK),
        Under::Here(index) => fields.interface(LINK, index),
        Under::Elsewhere(index) => fields.number(LINK_INDEX, index),
    }
}

fn behind_of<'a>(fields: &Fields<'a>, under: Under) -> Behind<'a> {
    match under {
        Under::Untold => Behind::Text(""),
        Under::Nothing => Behind::Text("@NONE"),
        Under::Elsewhere(index) => Behind::Number(index),
        Under::Here(index) => match fields.manner.interface(index) {
            Some(name) => Behind::Name(name),
            None => Behind::Number(index),
        },
    }
}

/// The flags, and whether that is missing which makes a link that is up run.
fn push_flags(fields: &mut Fields, bits: u32, under: Under) {
    let mut inside = Fields::new(fields.manner);
    match (bits & IFF_UP != 0, bits & IFF_RUNNING != 0) {
        (true, false) => inside.text(ITEM, &"NO-CARRIER"),
        (false, true) => inside.text(ITEM, &"RUNNING"),
        _ => {}
    }
    push_bits(&mut inside, LINK_FLAGS, bits & !IFF_RUNNING);
    if is_under_down(fields, under) {
        inside.text(ITEM, &"M-DOWN");
    }
    fields.list_in(FLAGS, inside, ("<", ",", ">"));
}

fn is_under_down(fields: &Fields, under: Under) -> bool {
    match under {
        Under::Here(index) => fields.manner.interfaces.is_down(index),
        _ => false,
    }
}

fn push_header(fields: &mut Fields, header: &LinkMessageBuffer) {
    push_type(fields, header.link_layer_type);
    let family = AddressFamily::from(header.interface_family);
    fields.text(FAMILY, &family);
    fields.hide_if(family == AddressFamily::Unspec);
    let change = header.change_mask;
    fields.bits(CHANGE, change);
    fields.hide_if(matches!(change, 0 | u32::MAX));
}

fn push_type(fields: &mut Fields, number: u16) {
    match fields.manner.name(LINK_TYPES, u32::from(number)) {
        Some(name) => fields.text(TYPE, &name),
        None => {
            let text = format!(in fields.manner.alloc; "[{number}]");
            fields.made(TYPE, text)
        }
    }
}
