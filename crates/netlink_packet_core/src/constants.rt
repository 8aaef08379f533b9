//! The types and the flags of an envelope (`linux/netlink.h`).

/// The bytes of an envelope's header: `struct nlmsghdr`.
pub const NETLINK_HEADER_LEN: usize = 16;

/// The next message begins at a multiple of so many bytes.
pub const NLMSG_ALIGNTO: usize = 4;

/// The type of a message that says nothing.
pub const NLMSG_NOOP: u16 = 1;

/// The type of an error, or of an acknowledgement.
pub const NLMSG_ERROR: u16 = 2;

/// The type of the end of a dump.
pub const NLMSG_DONE: u16 = 3;

/// The type of a message that says that data were lost.
pub const NLMSG_OVERRUN: u16 = 4;

/// The message is a request.
pub const NLM_F_REQUEST: u16 = 0x1;

/// The message is a part of several, which `NLMSG_DONE` ends (`NLM_F_MULTI`).
pub const NLM_F_MULTIPART: u16 = 0x2;

/// An acknowledgement is asked for.
pub const NLM_F_ACK: u16 = 0x4;

/// The request's own notifications are asked for.
pub const NLM_F_ECHO: u16 = 0x8;

/// The tables changed while they were dumped.
pub const NLM_F_DUMP_INTR: u16 = 0x10;

/// The dump was filtered as it was asked for.
pub const NLM_F_DUMP_FILTERED: u16 = 0x20;

/// Of a get: the whole table.
pub const NLM_F_ROOT: u16 = 0x100;

/// Of a get: all that match.
pub const NLM_F_MATCH: u16 = 0x200;

/// Of a get: at one moment.
pub const NLM_F_ATOMIC: u16 = 0x400;

/// Of a get: a dump, which is `NLM_F_ROOT` and `NLM_F_MATCH`.
pub const NLM_F_DUMP: u16 = 0x300;

/// Of a new: in place of one that is there.
pub const NLM_F_REPLACE: u16 = 0x100;

/// Of a new: only where there is none.
pub const NLM_F_EXCL: u16 = 0x200;

/// Of a new: also where there is none.
pub const NLM_F_CREATE: u16 = 0x400;

/// Of a new: at the end of the list.
pub const NLM_F_APPEND: u16 = 0x800;

/// Of a delete: not what stands below.
pub const NLM_F_NONREC: u16 = 0x100;

/// Of a delete: several.
pub const NLM_F_BULK: u16 = 0x200;

/// Of an error: the refused message is cut to its header.
pub const NLM_F_CAPPED: u16 = 0x100;

/// Of an error: attributes of an extended answer follow.
pub const NLM_F_ACK_TLVS: u16 = 0x200;
