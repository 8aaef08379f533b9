//! RPL: source routes of a network of low power (RFC 6554; `linux/rpl.h` and
//! `linux/rpl_iptunnel.h`).

ghost use Rattle.std.specs.Prelude.{◌≡◌, ◌≢◌, ◌≤◌, ◌*◌, length, [], IfOk, IfErr, IfSome, IfNone, refl};
ghost use Rattle.{
  npr_base.specs.{Family.{shaped}, Framing.{number_of}, Table.{shape_at, slot_plain}, declared.refusal.DecodeError.TheVariants.{OutOfMemory}},
  npr_srh.specs.{
    Keeping.{IsUnread},
    Headed.{front_layout},
    Rpl.{rpl, rpl_of, rpl_front},
    RplTunnel.{family, attributes, rpl_text, srh_at},
  },
};

use crate::segments::{check_header, read_parts, write_header};
use npr_base::{
    At, Attribute, AttributeSet, DecodeError, DefaultNla, EmitError, Form, Ipv6Addr, Looks, Nla,
    NlaBuffer, Parseable, Place, put_read, write_array, write_v6_list,
};
use std::alloc::{AllocError, Global};
use std::fmt;

/// An RPL source routing header (RFC 6554, section 3).
#[derive(Debug, Drop, PartialEq, Eq)]
pub struct RplSrh {
    /// The protocol of what follows.
    pub next_header: u8,
    /// The routing type: 3.
    pub routing_type: u8,
    /// How many segments are still to be visited.
    pub segments_left: u8,
    /// How many bytes in front are left out of each address but the last. 4 bits.
    pub cmpri: u8,
    /// How many bytes in front are left out of the last address. 4 bits.
    pub cmpre: u8,
    /// How many bytes of padding stand at the end. 4 bits.
    pub pad: u8,
    /// The segments, in the order of the wire.
    pub segments: Vec<Ipv6Addr>,
}

/// `RPL_IPTUNNEL_SRH` of `linux/rpl_iptunnel.h`.
const RPL_IPTUNNEL_SRH: u16 = 1;

impl RplSrh {
    /// A header with each field 0 and no segments. It takes no memory.
    pub fn new(alloc: Global) -> Self
        ensures { rpl_of result ≡ record { front = record { next_header = 0; routing_type = 0; segments_left = 0; cmpri = 0; cmpre = 0; pad = 0 }; segments = [] } }
    {
        RplSrh {
            next_header: 0,
            routing_type: 0,
            segments_left: 0,
            cmpri: 0,
            cmpre: 0,
            pad: 0,
            segments: Vec::new(alloc),
        }
    }

    /// An equal header.
    ///
    /// # Errors
    /// `AllocError` where memory is refused.
    pub fn try_clone(&self, alloc: Global) -> Result<Self, AllocError>
        ensures { IfOk result (λ h. rpl_of h ≡ rpl_of self.now) }
    {
        Ok(RplSrh {
            segments: Vec::from_slice(alloc, self.segments.as_slice())?,
            ..*self
        })
    }

    /// The header that a value is, or `None` where it can't be read. The refusal is `OutOfMemory`
    /// alone, where memory is refused.
    #[tactic(auto, using(crate::specs::Headed::unread_headed))]
    pub(crate) fn read(alloc: Global, value: &[u8]) -> Option<Result<Self, DecodeError>>
        ensures ok { IfSome result (λ r. IfOk r (λ h. rpl.Reads value.now (rpl_of h))) }
        ensures none { IfNone result (IsUnread rpl.Reads value.now) }
        ensures refused { IfSome result (λ r. IfErr r (λ e. e ≡ OutOfMemory)) }
    {
        // Bytes are left out of addresses.
        if *value.get(4)? != 0 {
            return None;
        }
        let parts = read_parts(alloc, value)?;
        Some(parts.map(|(head, segments)| RplSrh {
            next_header: head[0],
            routing_type: head[2],
            segments_left: head[3],
            cmpri: 0,
            cmpre: 0,
            pad: head[5] / 16,
            segments,
        }))
    }

    /// The eight bytes in front. Asks that the segments fit.
    fn front(&self) -> [u8; 8]
        requires { length self.now.segments.items ≤ 127 }
        ensures { result ≡ (front_layout rpl_front (2 * length self.now.segments.items)).encode (rpl_of self.now).front }
    {
        [
            self.next_header,
            (2 * self.segments.len()) as u8,
            self.routing_type,
            self.segments_left,
            self.cmpri % 16 * 16 + self.cmpre % 16,
            self.pad % 16 * 16,
            0,
            0,
        ]
    }
}

impl Nla for RplSrh {
    ghost shape = { λ h. shape_at (slot_plain 1 rpl (rpl_of h)) };

    fn kind(&self) -> u16 {
        RPL_IPTUNNEL_SRH
    }

    fn is_nested(&self) -> bool {
        false
    }

    fn check_value(&self) -> Result<usize, EmitError> {
        check_header(RPL_IPTUNNEL_SRH, 8, self.segments.as_slice(), 127)
    }

    fn write_value(&self, out: &mut [u8]) -> usize {
        let front = write_array(self.front(), out);
        front + write_v6_list(self.segments.as_slice(), &mut out[front..])
    }
}

impl<'a> Parseable<&'a NlaBuffer<'a>> for RplSrh {
    ghost parses = { λ input h. rpl.Reads input.now.value (rpl_of h) };

    ghost misparses = { λ input e. rpl.Wrong srh_at input.now.value e };

    /// The header that the value is.
    ///
    /// # Errors
    /// `OutOfMemory` where memory is refused, and else `Unsupported`.
    fn parse(alloc: Global, input: &'a NlaBuffer<'a>) -> Result<Self, DecodeError> {
        RplSrh::read(alloc, input.value()).unwrap_or(Err(DecodeError::Unsupported {
            at: AttributeSet::Rpl.at(RPL_IPTUNNEL_SRH),
        }))
    }
}

/// A member of an RPL tunnel: `RPL_IPTUNNEL_*` of `linux/rpl_iptunnel.h`.
#[derive(Debug, Default, Drop, PartialEq, Eq)]
pub enum RouteRplIpTunnel {
    /// `RPL_IPTUNNEL_UNSPEC`: nothing; what stood in its value is dropped.
    #[default]
    Unspecified,
    /// `RPL_IPTUNNEL_SRH`: the routing header.
    Srh(RplSrh),
    /// A member of another number, or a header that can't be read, as it stands.
    Other(DefaultNla),
}

/// The rows of the table.
macro_rules! rows {
    ($body:ident ($($given:tt)*)) => {
        npr_base::$body!(($($given)*) RouteRplIpTunnel of Rpl {
            0 Unspecified;
        })
    };
}

impl Nla for RouteRplIpTunnel {
    ghost shape = { shaped family };

    fn kind(&self) -> u16 {
        rows!(kind_rows(self; RouteRplIpTunnel::Srh(header) => header.kind(),))
    }

    fn is_nested(&self) -> bool {
        false
    }

    fn check_value(&self) -> Result<usize, EmitError> {
        Ok(rows!(len_rows(self; RouteRplIpTunnel::Srh(header) => header.check_value()?,)))
    }

    fn write_value(&self, out: &mut [u8]) -> usize {
        rows!(write_rows(self, out; RouteRplIpTunnel::Srh(header) => header.write_value(out),))
    }
}

impl Attribute for RouteRplIpTunnel {
    type Context = ();

    ghost family = { family };

    ghost shape_is = { λ a. refl };

    #[tactic(auto, unfolding(crate::specs::RplTunnel::attributes))]
    fn read_into<P: Place<Self>>(
        place: &mut P,
        alloc: Global,
        _context: (),
        item: &NlaBuffer<'_>,
        looks: &mut Looks,
    ) -> Result<(), DecodeError> {
        rows!(put_rows(place, alloc, item, looks;
            RPL_IPTUNNEL_SRH => match RplSrh::read(alloc, item.value()) {
                Some(header) => put_read(place, header, RouteRplIpTunnel::Srh),
                None => put_read(place, DefaultNla::read(alloc, item), RouteRplIpTunnel::Other),
            },
        ))
    }

    #[tactic(auto, unfolding(crate::specs::RplTunnel::attributes))]
    fn form(_context: (), number: u16) -> (At, Form) {
        rows!(form_rows(number; RPL_IPTUNNEL_SRH => Form::Inside,))
    }

    fn try_clone(&self, alloc: Global) -> Result<Self, AllocError> {
        rows!(clone_rows(self, alloc; RouteRplIpTunnel::Srh(header) => header.try_clone(alloc).map(RouteRplIpTunnel::Srh),))
    }
}

impl RouteRplIpTunnel {
    /// Whether the routing header is read, which has a reader of its own, or `None` for an attribute
    /// of another number. It is read of any bytes: what is none is kept as it stands.
    pub fn check_apart(item: &NlaBuffer<'_>) -> Option<Result<(), DecodeError>>
        ensures apart { IfSome result (λ _. number_of (item.now).kind ≡ 1) }
        ensures other { IfNone result (number_of (item.now).kind ≢ 1) }
        ensures ok { IfSome result (λ r. IfOk r (λ _. (m : family.Meaning) × attributes.Reads item.now m)) }
        ensures refused { IfSome result (λ r. IfErr r (λ e. attributes.Faulty item.now e)) }
    {
        if item.kind() != RPL_IPTUNNEL_SRH {
            return None;
        }
        Some(Ok(()))
    }
}

/// The words of `ip`: how many segments are still to visit, and all of them, the last one first.
impl fmt::Display for RouteRplIpTunnel {
    ghost output = { λ member. rpl_text (family.meaning member) };

    fn fmt<W: fmt::Write>(&self, f: &mut fmt::Formatter<W>) -> fmt::Result {
        match self {
            RouteRplIpTunnel::Unspecified => f.write_str("unspecified"),
            RouteRplIpTunnel::Srh(header) => {
                let left = u16::from(header.segments_left);
                write_header(f, left, header.segments.as_slice())
            }
            RouteRplIpTunnel::Other(nla) => fmt::Debug::fmt(nla, f),
        }
    }
}
