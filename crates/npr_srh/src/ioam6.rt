//! IOAM6: traces in packets (RFC 9197; `linux/ioam6.h` and `linux/ioam6_iptunnel.h`).

ghost use Rattle.std.specs.{Prelude.{◌≡◌, ◌≢◌, IfOk, IfErr, IfSome, IfNone, refl, Some}, Fmt.{WritesOnOk}};
ghost use Rattle.{
  npr_base.specs.{Family.{shaped}, Framing.{number_of}, Table.{shape_at, slot_plain}, declared.refusal.DecodeError.TheVariants.{OutOfMemory}},
  npr_srh.specs.{
    Ioam6Mode.{ioam6_modes, ioam6_mode_text},
    Keeping.{IsUnread},
    Trace.{trace, trace_layout, IsTrace, trace_text},
    Ioam6Tunnel.{family, attributes, ioam6_text, trace_at},
  },
};

use npr_base::{
    At, Attribute, AttributeSet, DecodeError, DefaultNla, EmitError, Form, Ipv6Addr, Looks, Nla,
    NlaBuffer, Parseable, Place, put_read, write_array, write_six_hex_digits,
};
use std::alloc::{AllocError, Global};
use std::fmt;

/// How a trace is put in: `IOAM6_IPTUNNEL_MODE_*` of `linux/ioam6_iptunnel.h`.
#[derive(Clone, Copy, Debug, Default, PartialEq, Eq)]
pub enum Ioam6Mode {
    /// Into the packet itself.
    #[default]
    Inline,
    /// With a header of IP around the packet.
    Encap,
    /// Into the packet where the host made it, and else with a header around it.
    Auto,
    /// Any other number.
    Other(u8),
}

/// Their numbers and names.
macro_rules! numbers {
    ($body:ident ($($given:tt)*)) => {
        npr_base::$body!(($($given)*) Ioam6Mode {
            1 Inline "inline";
            2 Encap "encap";
            3 Auto "auto";
        })
    };
}

impl From<u8> for Ioam6Mode {
    ghost from_gives = { λ number mode. mode ≡ ioam6_modes.of number };

    fn from(number: u8) -> Ioam6Mode {
        numbers!(variant_of_number(number))
    }
}

impl From<Ioam6Mode> for u8 {
    ghost from_gives = { λ mode number. number ≡ ioam6_modes.number mode };

    fn from(mode: Ioam6Mode) -> u8 {
        numbers!(number_of_variant(mode))
    }
}

/// The header of a trace whose room is there from the start (RFC 9197, section 4.4.1).
#[derive(Clone, Copy, Debug, Default, PartialEq, Eq)]
pub struct Ioam6TraceHdr {
    /// The number of the namespace.
    pub namespace_id: u16,
    /// The length of a node's data, in units of 4 bytes. 5 bits.
    pub nodelen: u8,
    /// Whether a node found no room.
    pub overflow: bool,
    /// The room that is left, in units of 4 bytes. 7 bits.
    pub remlen: u8,
    /// Which data each node writes, a bit for each. 24 bits.
    pub trace_type: u32,
}

/// `IOAM6_IPTUNNEL_TRACE` of `linux/ioam6_iptunnel.h`.
const IOAM6_IPTUNNEL_TRACE: u16 = 3;

impl Ioam6TraceHdr {
    /// The header that a value is: exactly 8 bytes.
    pub(crate) fn read(value: &[u8]) -> Option<Self>
        ensures some { IfSome result (λ t. IsTrace value.now t) }
        ensures none { IfNone result (IsUnread IsTrace value.now) }
    {
        let [a, b, node, room, c, d, e, f] = value else {
            return None;
        };
        Some(Ioam6TraceHdr {
            namespace_id: u16::from_be_bytes([*a, *b]),
            nodelen: *node / 4 / 2,
            overflow: *node / 4 % 2 == 1,
            remlen: *room % 128,
            trace_type: u32::from_be_bytes([*c, *d, *e, *f]) / 256,
        })
    }

    /// The eight bytes, each field modulo its bits.
    fn to_bytes(&self) -> [u8; 8]
        ensures { result ≡ trace_layout.encode self.now }
    {
        let [a, b] = self.namespace_id.to_be_bytes();
        let node = (self.nodelen % 32 * 2 + u8::from(self.overflow)) * 4;
        let [c, d, e, f] = (self.trace_type % 0x0100_0000 * 256).to_be_bytes();
        [a, b, node, self.remlen % 128, c, d, e, f]
    }
}

impl Nla for Ioam6TraceHdr {
    ghost shape = { λ t. shape_at (slot_plain 3 trace t) };

    fn kind(&self) -> u16 {
        IOAM6_IPTUNNEL_TRACE
    }

    fn is_nested(&self) -> bool {
        false
    }

    fn check_value(&self) -> Result<usize, EmitError> {
        Ok(8)
    }

    fn write_value(&self, out: &mut [u8]) -> usize {
        write_array(self.to_bytes(), out)
    }
}

impl<'a> Parseable<&'a NlaBuffer<'a>> for Ioam6TraceHdr {
    ghost parses = { λ input t. trace.Reads input.now.value t };

    ghost misparses = { λ input e. trace.Wrong trace_at input.now.value e };

    /// The header that the value is.
    ///
    /// # Errors
    /// `Unsupported` at a length other than 8 bytes.
    fn parse(_alloc: Global, input: &'a NlaBuffer<'a>) -> Result<Self, DecodeError>
        ensures ok { IfOk result (λ t. trace.Reads input.now.value t) }
        ensures refused { IfErr result (λ e. e ≢ OutOfMemory → trace.Wrong trace_at input.now.value e) }
        // It takes no memory.
        ensures memory { IfErr result (λ e. e ≢ OutOfMemory) }
    {
        Ioam6TraceHdr::read(input.value()).ok_or(DecodeError::Unsupported {
            at: AttributeSet::Ioam6.at(IOAM6_IPTUNNEL_TRACE),
        })
    }
}

/// A member of an IOAM6 tunnel: `IOAM6_IPTUNNEL_*` of `linux/ioam6_iptunnel.h`.
#[derive(Debug, Default, Drop, PartialEq, Eq)]
pub enum RouteIoam6Tunnel {
    /// `IOAM6_IPTUNNEL_UNSPEC`: nothing; what stood in its value is dropped.
    #[default]
    Unspecified,
    /// `IOAM6_IPTUNNEL_MODE`: how the trace is put in.
    Mode(Ioam6Mode),
    /// `IOAM6_IPTUNNEL_DST`: the address that the header around the packet is sent to.
    Dst(Ipv6Addr),
    /// `IOAM6_IPTUNNEL_TRACE`: the trace that is put in.
    Trace(Ioam6TraceHdr),
    /// `IOAM6_IPTUNNEL_FREQ_K`: it is put into so many packets..
    FreqK(u32),
    /// `IOAM6_IPTUNNEL_FREQ_N`: .. of so many.
    FreqN(u32),
    /// `IOAM6_IPTUNNEL_SRC`: the address that the header around the packet is sent from.
    Src(Ipv6Addr),
    /// A member of another number, or a trace that can't be read, as it stands.
    Other(DefaultNla),
}

/// The rows of the table.
macro_rules! rows {
    ($body:ident ($($given:tt)*)) => {
        npr_base::$body!(($($given)*) RouteIoam6Tunnel of Ioam6 {
            0 Unspecified;
            1 Mode(Ioam6Mode as byte);
            2 Dst(octets16);
            4 FreqK(le32);
            5 FreqN(le32);
            6 Src(octets16);
        })
    };
}

impl Nla for RouteIoam6Tunnel {
    ghost shape = { shaped family };

    fn kind(&self) -> u16 {
        rows!(kind_rows(self; RouteIoam6Tunnel::Trace(trace) => trace.kind(),))
    }

    fn is_nested(&self) -> bool {
        false
    }

    fn check_value(&self) -> Result<usize, EmitError> {
        Ok(rows!(len_rows(self; RouteIoam6Tunnel::Trace(trace) => trace.check_value()?,)))
    }

    fn write_value(&self, out: &mut [u8]) -> usize {
        rows!(write_rows(self, out; RouteIoam6Tunnel::Trace(trace) => trace.write_value(out),))
    }
}

impl Attribute for RouteIoam6Tunnel {
    type Context = ();

    ghost family = { family };

    ghost shape_is = { λ a. refl };

    #[tactic(auto, unfolding(crate::specs::Ioam6Tunnel::attributes))]
    fn read_into<P: Place<Self>>(
        place: &mut P,
        alloc: Global,
        _context: (),
        item: &NlaBuffer<'_>,
        looks: &mut Looks,
    ) -> Result<(), DecodeError> {
        rows!(put_rows(place, alloc, item, looks;
            IOAM6_IPTUNNEL_TRACE => match Ioam6TraceHdr::read(item.value()) {
                Some(trace) => put_read(place, Ok(trace), RouteIoam6Tunnel::Trace),
                None => put_read(place, DefaultNla::read(alloc, item), RouteIoam6Tunnel::Other),
            },
        ))
    }

    #[tactic(auto, unfolding(crate::specs::Ioam6Tunnel::attributes))]
    fn form(_context: (), number: u16) -> (At, Form) {
        rows!(form_rows(number; IOAM6_IPTUNNEL_TRACE => Form::Inside,))
    }

    fn try_clone(&self, alloc: Global) -> Result<Self, AllocError> {
        rows!(clone_rows(self, alloc; RouteIoam6Tunnel::Trace(trace) => Ok(RouteIoam6Tunnel::Trace(*trace)),))
    }
}

impl RouteIoam6Tunnel {
    /// Whether the trace is read, which has a reader of its own, or `None` for an attribute
    /// of another number. It is read of any bytes: what is none is kept as it stands.
    pub fn check_apart(item: &NlaBuffer<'_>) -> Option<Result<(), DecodeError>>
        ensures apart { IfSome result (λ _. number_of (item.now).kind ≡ 3) }
        ensures other { IfNone result (number_of (item.now).kind ≢ 3) }
        ensures ok { IfSome result (λ r. IfOk r (λ _. (m : family.Meaning) × attributes.Reads item.now m)) }
        ensures refused { IfSome result (λ r. IfErr r (λ e. attributes.Faulty item.now e)) }
    {
        if item.kind() != IOAM6_IPTUNNEL_TRACE {
            return None;
        }
        Some(Ok(()))
    }
}

/// The name, and of any other mode its number.
impl fmt::Display for Ioam6Mode {
    ghost output = { λ mode. Some (ioam6_mode_text mode) };

    fn fmt<W: fmt::Write>(&self, f: &mut fmt::Formatter<W>) -> fmt::Result {
        numbers!(write_variant(self, f, "other({})"))
    }
}

/// The words of `ip`: a trace with its type, its namespace and its room in bytes.
impl fmt::Display for RouteIoam6Tunnel {
    ghost output = { λ member. ioam6_text (family.meaning member) };

    fn fmt<W: fmt::Write>(&self, f: &mut fmt::Formatter<W>) -> fmt::Result {
        match self {
            RouteIoam6Tunnel::Unspecified => f.write_str("unspecified"),
            RouteIoam6Tunnel::Mode(mode) => write!(f, "mode {mode}"),
            RouteIoam6Tunnel::Dst(address) => write!(f, "tundst {address}"),
            RouteIoam6Tunnel::Trace(header) => write_trace(f, header),
            RouteIoam6Tunnel::FreqK(number) => write!(f, "freq {number}"),
            RouteIoam6Tunnel::FreqN(number) => write!(f, "/{number}"),
            RouteIoam6Tunnel::Src(address) => write!(f, "tunsrc {address}"),
            RouteIoam6Tunnel::Other(nla) => fmt::Debug::fmt(nla, f),
        }
    }
}

/// Writes the text of a trace.
fn write_trace<W: fmt::Write>(f: &mut fmt::Formatter<W>, header: &Ioam6TraceHdr) -> fmt::Result
    ensures { WritesOnOk W.write_str_gives f.old result (trace_text header.now) f.new }
{
    f.write_str("trace prealloc type 0x")?;
    write_six_hex_digits(f, header.trace_type)?;
    let namespace = header.namespace_id;
    let size = 4 * u16::from(header.remlen);
    write!(f, " ns {namespace} size {size}")
}
