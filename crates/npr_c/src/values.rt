//! Values of attributes, one by one where they stand, and the lists that they hold. No call takes
//! memory.

ghost use Rattle.std.specs.Prelude.{◌≡◌, MatchOption};
ghost use Rattle.{
  netlink_packet_route.specs.Value.{shown},
  npr_c.specs.{
    Kinds.{kind_at, unknown_kind},
    Nests.{nest_context, nest_of, nest_set, set_number},
    Numbers.{refusal_number},
    Values.{BeginsAt, HopInside, InsideAt, ValuesAt, form_number, integer_of, length_of, no_list, no_value},
  },
};

use crate::answer::refusal_number;
use crate::kinds::{UNKNOWN_KIND, kind_at};
use crate::nests::{nest_context, nest_of, nest_set, set_number};
use netlink_packet_route::framing::{DecodeError, NLA_HEADER_SIZE, NlasIterator, Value};
use netlink_packet_route::net::IpAddr;
use netlink_packet_route::{MessageKind, Nest};

/// What a step over values answers.
///
/// Layout: three numbers of 4 bytes, two of 2 bytes, one of 8 bytes, and three of the machine's word,
/// in this order.
#[repr(C)]
#[derive(Clone, Copy)]
pub struct ValueStep {
    /// 0 where a value is found, 1 where none stands or it is wrong, 2 at the end of the bytes.
    pub status: u32,
    /// The number of the refusal at status 1, and else 0.
    pub number: u32,
    /// The number of the attribute's family; 0 unless the status is 0.
    pub family: u32,
    /// The attribute's number there, without the two flags; 0 unless the status is 0.
    pub kind: u16,
    /// What the value is; 0 unless the status is 0.
    pub form: u16,
    /// A number, in the order of the machine, and else 0.
    pub integer: u64,
    /// Where the value begins, in bytes from the first; 0 unless the status is 0.
    pub value: usize,
    /// How many bytes of it there are, of a name without its zero; 0 unless the status is 0.
    pub length: usize,
    /// Where the next attribute begins, in bytes from the first, or how many bytes there are; 0 unless
    /// the status is 0.
    pub next: usize,
}

/// What a call for a list answers.
///
/// Layout: four numbers of 4 bytes, and two of the machine's word, in this order.
#[repr(C)]
#[derive(Clone, Copy)]
pub struct ListStep {
    /// 0 where a list is found, 1 where the bytes are fewer than a header, 2 where none stands.
    pub status: u32,
    /// The number of the refusal at status 1, and else 0.
    pub number: u32,
    /// The number of the family of its attributes; 0 unless the status is 0.
    pub family: u32,
    /// What their numbers rest on besides; 0 unless the status is 0.
    pub context: u32,
    /// Where the list begins, in bytes from the first; 0 unless the status is 0.
    pub at: usize,
    /// Where it ends, in bytes from the first; 0 unless the status is 0.
    pub end: usize,
}

const NO_VALUE: ValueStep = ValueStep {
    status: 0,
    number: 0,
    family: 0,
    kind: 0,
    form: 0,
    integer: 0,
    value: 0,
    length: 0,
    next: 0,
};

const END_OF_VALUES: ValueStep = ValueStep {
    status: 2,
    ..NO_VALUE
};

const NO_LIST: ListStep = ListStep {
    status: 2,
    number: 0,
    family: 0,
    context: 0,
    at: 0,
    end: 0,
};

/// A value without its place: its form, its number, and its length.
type Told = (u16, u64, usize);

/// What is told of a value.
fn told(value: &Value<'_>) -> Told
    ensures { result ≡ (form_number (shown value.now), integer_of (shown value.now), length_of (shown value.now)) }
{
    match value {
        Value::Nothing => (0, 0, 0),
        Value::U8(n) => (1, u64::from(*n), 1),
        Value::U16(n) => (2, u64::from(*n), 2),
        Value::U32(n) => (3, u64::from(*n), 4),
        Value::U64(n) => (4, *n, 8),
        Value::I32(n) => (5, i64::from(*n).cast_unsigned(), 4),
        Value::I64(n) => (12, n.cast_unsigned(), 8),
        Value::Bool(b) => (6, u64::from(*b), 1),
        Value::Address(IpAddr::V4(address)) => (7, 0, address.octets().len()),
        Value::Address(IpAddr::V6(address)) => (7, 0, address.octets().len()),
        Value::Name(text) => (8, 0, text.len()),
        Value::Bytes(bytes) => (9, 0, bytes.len()),
        Value::Structure(bytes) => (10, 0, bytes.len()),
        Value::Inside(bytes) => (11, 0, bytes.len()),
    }
}

/// A refusal in place of a value.
fn refused(fault: DecodeError) -> ValueStep
    ensures { result ≡ no_value 1 (refusal_number fault) }
{
    ValueStep {
        status: 1,
        number: refusal_number(fault),
        ..NO_VALUE
    }
}

/// The value of the attribute that begins `at` bytes from the first of a list of this name, or why
/// there is none. At the length of the bytes, and past it, is their end. It takes no memory.
#[unsafe(no_mangle)]
pub extern "C" fn npr_value_at(bytes: &[u8], at: usize, family: u32, context: u32) -> ValueStep
    ensures { ValuesAt bytes.now at (nest_of family context) result }
{
    if at >= bytes.len() {
        return END_OF_VALUES;
    }
    let mut walk = NlasIterator::new(&bytes[at..]);
    let item = match walk.next() {
        None => return END_OF_VALUES,
        Some(Err(fault)) => return refused(fault),
        Some(Ok(item)) => item,
    };
    match nest_of(family, context).value(&item) {
        Err(fault) => refused(fault),
        Ok((place, value)) => {
            let (form, integer, length) = told(&value);
            ValueStep {
                family: set_number(place.set),
                kind: item.kind(),
                form,
                integer,
                value: at + NLA_HEADER_SIZE,
                length,
                next: bytes.len() - walk.rest().len(),
                ..NO_VALUE
            }
        }
    }
}

/// A list that stands between two places.
fn list_at(nest: Nest, at: usize, end: usize) -> ListStep
    ensures { result ≡ record { status = 0; number = 0; family = nest_set nest; context = nest_context nest; at = at; end = end } }
{
    ListStep {
        status: 0,
        number: 0,
        family: nest_set(nest),
        context: nest_context(nest),
        at,
        end,
    }
}

/// The list behind the header of a message.
fn begin(kind: MessageKind, bytes: &[u8]) -> ListStep
    ensures { BeginsAt kind bytes.now result }
{
    match Nest::begin(kind, bytes) {
        Ok((nest, attributes)) => list_at(nest, bytes.len() - attributes.len(), bytes.len()),
        Err(fault) => ListStep {
            status: 1,
            number: refusal_number(fault),
            ..NO_LIST
        },
    }
}

/// The list of the attributes of a message of the kind of this number, behind its header. It takes no
/// memory.
///
/// # Errors
/// `UnknownKind` at a number of no kind.
#[unsafe(no_mangle)]
pub extern "C" fn npr_begin(kind: u32, bytes: &[u8]) -> ListStep
    ensures { MatchOption (kind_at kind) (result ≡ no_list 1 unknown_kind) (λ known. BeginsAt known bytes.now result) }
{
    match kind_at(kind) {
        Some(known) => begin(known, bytes),
        None => ListStep {
            status: 1,
            number: UNKNOWN_KIND,
            ..NO_LIST
        },
    }
}

/// The list of attributes in the value of the attribute that begins `at` bytes from the first of a
/// list of this name, or that there is none. It takes no memory.
#[unsafe(no_mangle)]
pub extern "C" fn npr_inside_at(bytes: &[u8], at: usize, family: u32, context: u32) -> ListStep
    ensures { InsideAt bytes.now at (nest_of family context) result }
{
    if at >= bytes.len() {
        return NO_LIST;
    }
    let mut walk = NlasIterator::new(&bytes[at..]);
    let Some(Ok(item)) = walk.next() else {
        return NO_LIST;
    };
    match nest_of(family, context).inside(item.kind(), item.value()) {
        None => NO_LIST,
        Some((nest, attributes)) => {
            let end = at + NLA_HEADER_SIZE + item.value().len();
            list_at(nest, end - attributes.len(), end)
        }
    }
}

/// The list of the attributes of a next hop in a list of this name, which begins `at` bytes from the
/// first, and ends with the bytes. It takes no memory.
#[unsafe(no_mangle)]
pub extern "C" fn npr_hop_inside(bytes: &[u8], at: usize, family: u32, context: u32) -> ListStep
    ensures { HopInside bytes.now at (nest_of family context) result }
{
    if at > bytes.len() {
        return NO_LIST;
    }
    let nest = nest_of(family, context).of_next_hop(&bytes[at..]);
    list_at(nest, at, bytes.len())
}
