//! Attributes and lists of them: `struct nlattr` of `linux/netlink.h`.

pub use npr_base::{
    At, Attribute, AttributeSet, Attributes, DecodeError, DefaultNla, EmitError, Emitable, Form,
    Header, Looks, Message, NLA_ALIGNTO, NLA_F_NESTED, NLA_F_NET_BYTEORDER, NLA_HEADER_SIZE,
    NLA_TYPE_MASK, Nla, NlaBuffer, NlasIterator, Parseable, ParseableParametrized, Seg6Fault,
    Value, Values, WriteError, check_attribute_len, check_list, clone_list, emit_list, fill_list,
    marked_kind, parse_list, to_vec, write_attribute, write_list,
};
pub use npr_names::{Named, attribute_name};
