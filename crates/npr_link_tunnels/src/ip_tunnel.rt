//! The data of a tunnel of IP: `IFLA_IPTUN_*` of `linux/if_tunnel.h`.

ghost use Rattle.std.specs.Prelude.{◌≡◌, ◌≢◌, IfOk, IfErr};
ghost use Rattle.{
  npr_base.specs.{declared.refusal.DecodeError.TheVariants.{OutOfMemory}, Framing.{number_of}},
  npr_link_tunnels.specs.{
    TunnelFlags.{kind_of, flags_form},
    IpTunnel.{family, shape, shape-by, HasFlags, FlagsFault, IsFlat, FlatFault},
  },
};

use crate::form::InfoForm;
use crate::ip6_tunnel_flags::Ip6TunnelFlags;
use crate::tunnel_encap_flags::TunnelEncapFlags;
use crate::tunnel_encap_type::TunnelEncapType;
use bitflags::Flags;
use npr_base::{
    At, Attribute, AttributeSet, DecodeError, DefaultNla, EmitError, Form, IpAddr, Ipv4Addr,
    Ipv6Addr, Looks, Nla, NlaBuffer, Place, Rowed, read_u16, read_u32, write_array,
};
use npr_route_values::{IpProtocol, check_protocol, protocol_byte};
use std::alloc::{AllocError, Global};

/// The data of a tunnel of IP. Which flags it has rests on the kind of the link.
#[derive(Debug, Drop, PartialEq, Eq)]
pub enum InfoIpTunnel {
    /// `IFLA_IPTUN_FLAGS` of `ipip`, 2 bytes, little endian.
    Ipv4Flags(u16),
    /// `IFLA_IPTUN_FLAGS` of `sit`, 2 bytes, little endian: `SIT_ISATAP`.
    Ipv6SitFlags(u16),
    /// `IFLA_IPTUN_FLAGS` of `ip6tnl`.
    Ipv6Flags(Ip6TunnelFlags),
    /// `IFLA_IPTUN_LINK`: the index of the link that it goes by.
    Link(u32),
    /// `IFLA_IPTUN_LOCAL`: the address of this end.
    Local(IpAddr),
    /// `IFLA_IPTUN_REMOTE`: the address of the other end.
    Remote(IpAddr),
    /// `IFLA_IPTUN_TTL`: the time to live of what it sends, or 0 for that of the packet inside.
    Ttl(u8),
    /// `IFLA_IPTUN_TOS`: the type of service of what it sends, or 1 for that of the packet inside.
    Tos(u8),
    /// `IFLA_IPTUN_ENCAP_LIMIT`: how many more tunnels what it sends may go into.
    EncapLimit(u8),
    /// `IFLA_IPTUN_FLOWINFO`: the traffic class and the flow label of what it sends.
    FlowInfo(u32),
    /// `IFLA_IPTUN_PROTO`: the protocol inside, or 0 for any.
    Protocol(IpProtocol),
    /// `IFLA_IPTUN_PMTUDISC`: whether the MTU of the path is found out.
    PMtuDisc(bool),
    /// `IFLA_IPTUN_6RD_PREFIX`: the prefix of 6rd.
    Ipv6RdPrefix(Ipv6Addr),
    /// `IFLA_IPTUN_6RD_RELAY_PREFIX`: what the addresses of version 4 begin with that 6rd leaves out.
    Ipv6RdRelayPrefix(Ipv4Addr),
    /// `IFLA_IPTUN_6RD_PREFIXLEN`: the length of the prefix of 6rd, in bits.
    Ipv6RdPrefixLen(u16),
    /// `IFLA_IPTUN_6RD_RELAY_PREFIXLEN`: how much 6rd leaves out, in bits.
    Ipv6RdRelayPrefixLen(u16),
    /// `IFLA_IPTUN_ENCAP_TYPE`: what stands between IP and the packet inside.
    EncapType(TunnelEncapType),
    /// `IFLA_IPTUN_ENCAP_FLAGS`: which checksums that has.
    EncapFlags(TunnelEncapFlags),
    /// `IFLA_IPTUN_ENCAP_SPORT`: the port of UDP that it sends from, or 0 for one by the flow.
    EncapSPort(u16),
    /// `IFLA_IPTUN_ENCAP_DPORT`: the port of UDP that it sends to.
    EncapDPort(u16),
    /// `IFLA_IPTUN_COLLECT_METADATA`: whether each packet says the other end itself.
    CollectMetadata(bool),
    /// `IFLA_IPTUN_FWMARK`: the mark of what goes out.
    FwMark(u32),
    /// An attribute of another number, or flags of a link of another kind, as it stands.
    Other(DefaultNla),
}

/// The number of the flags, `IFLA_IPTUN_FLAGS`.
const IFLA_IPTUN_FLAGS: u16 = 8;

/// The rows of the table that stand for themselves. Number 8 stands beside them in each match.
macro_rules! rows {
    ($body:ident ($($given:tt)*)) => {
        npr_base::$body!(($($given)*) InfoIpTunnel of InfoIpTunnel {
            1 Link(le32);
            2 Local(ip);
            3 Remote(ip);
            4 Ttl(byte);
            5 Tos(byte);
            6 EncapLimit(byte);
            7 FlowInfo(be32);
            9 Protocol(IpProtocol as byte by protocol_byte);
            10 PMtuDisc(boolean);
            11 Ipv6RdPrefix(octets16);
            12 Ipv6RdRelayPrefix(octets4);
            13 Ipv6RdPrefixLen(le16);
            14 Ipv6RdRelayPrefixLen(le16);
            15 EncapType(TunnelEncapType as le16);
            16 EncapFlags(TunnelEncapFlags flags le16);
            17 EncapSPort(be16);
            18 EncapDPort(be16);
            19 CollectMetadata(flag);
            20 FwMark(le32);
        })
    };
}

impl Nla for InfoIpTunnel {
    ghost shape = { shape };

    fn kind(&self) -> u16 {
        rows!(kind_rows(self;
            InfoIpTunnel::Ipv4Flags(_) => IFLA_IPTUN_FLAGS,
            InfoIpTunnel::Ipv6SitFlags(_) => IFLA_IPTUN_FLAGS,
            InfoIpTunnel::Ipv6Flags(_) => IFLA_IPTUN_FLAGS,
        ))
    }

    fn is_nested(&self) -> bool {
        false
    }

    fn check_value(&self) -> Result<usize, EmitError> {
        match self {
            InfoIpTunnel::Protocol(protocol) => check_protocol(*protocol),
            _ => Ok(rows!(len_rows(self;
                InfoIpTunnel::Ipv4Flags(_) => 2,
                InfoIpTunnel::Ipv6SitFlags(_) => 2,
                InfoIpTunnel::Ipv6Flags(_) => 4,
            ))),
        }
    }

    fn write_value(&self, out: &mut [u8]) -> usize {
        rows!(write_rows(self, out;
            InfoIpTunnel::Ipv4Flags(x) => write_array(x.to_le_bytes(), out),
            InfoIpTunnel::Ipv6SitFlags(x) => write_array(x.to_le_bytes(), out),
            InfoIpTunnel::Ipv6Flags(x) => write_array(x.bits().to_le_bytes(), out),
        ))
    }
}

/// How flags are read without memory.
fn form_of_flags(form: InfoForm) -> Form
    ensures { result ≡ flags_form (kind_of form) }
{
    match form {
        InfoForm::IpIp | InfoForm::SitTun => Form::Little16,
        InfoForm::Ip6Tnl => Form::Little32,
        _ => Form::Raw,
    }
}

/// Puts the flags of a link of this kind, or the attribute as it stands.
///
/// # Errors
/// `OutOfMemory` where memory is refused, and `ValueLength` at another length than the kind's.
fn put_flags<P: Place<InfoIpTunnel>>(
    place: &mut P,
    alloc: Global,
    form: InfoForm,
    item: &NlaBuffer<'_>,
) -> Result<(), DecodeError>
    requires { P.ready place.old }
    ensures ok { IfOk result (λ _. (a : InfoIpTunnel) × P.puts place.old a place.new × HasFlags (kind_of form) item.now a) }
    ensures refused { IfErr result (λ e. e ≢ OutOfMemory → FlagsFault (kind_of form) item.now e) }
{
    let at = AttributeSet::InfoIpTunnel.at(IFLA_IPTUN_FLAGS);
    match form {
        InfoForm::IpIp => {
            place.put(InfoIpTunnel::Ipv4Flags(read_u16(item.value(), at)?));
            Ok(())
        }
        InfoForm::SitTun => {
            place.put(InfoIpTunnel::Ipv6SitFlags(read_u16(item.value(), at)?));
            Ok(())
        }
        InfoForm::Ip6Tnl => {
            let bits = read_u32(item.value(), at)?;
            place.put(InfoIpTunnel::Ipv6Flags(Ip6TunnelFlags::from_bits_retain(bits)));
            Ok(())
        }
        _ => {
            place.put(InfoIpTunnel::Other(DefaultNla::read(alloc, item)?));
            Ok(())
        }
    }
}

impl Rowed for InfoIpTunnel {
    ghost reads = { IsFlat };

    ghost wrong = { FlatFault };
}

/// Puts an attribute that stands for itself. No attribute has others inside.
///
/// # Errors
/// `OutOfMemory` where memory is refused, and `ValueLength` at a wrong length.
#[tactic(auto, unfolding(crate::specs::IpTunnel::IsFlat, crate::specs::IpTunnel::FlatFault))]
fn put_flat<P: Place<InfoIpTunnel>>(
    place: &mut P,
    alloc: Global,
    item: &NlaBuffer<'_>,
) -> Result<(), DecodeError>
    requires { P.ready place.old }
    ensures ok { IfOk result (λ _. (a : InfoIpTunnel) × P.puts place.old a place.new × IsFlat (number_of (item.now).kind) item.now a) }
    ensures refused { IfErr result (λ e. e ≢ OutOfMemory → FlatFault (number_of (item.now).kind) item.now e) }
{
    rows!(flat_rows(place, alloc, item))
}

impl Attribute for InfoIpTunnel {
    type Context = InfoForm;

    ghost family = { family };

    ghost shape_is = { shape-by };

    #[tactic(auto, using(crate::specs::IpTunnelSteps::flags_read, crate::specs::IpTunnelSteps::flags_wrong, crate::specs::IpTunnelSteps::flat_read, crate::specs::IpTunnelSteps::flat_wrong, crate::specs::IpTunnelSteps::no_looks))]
    fn read_into<P: Place<Self>>(
        place: &mut P,
        alloc: Global,
        form: InfoForm,
        item: &NlaBuffer<'_>,
        looks: &mut Looks,
    ) -> Result<(), DecodeError> {
        match item.kind() {
            IFLA_IPTUN_FLAGS => put_flags(place, alloc, form, item),
            _ => put_flat(place, alloc, item),
        }
    }

    #[tactic(auto, unfolding(crate::specs::IpTunnel::attributes))]
    fn form(form: InfoForm, number: u16) -> (At, Form) {
        rows!(form_rows(number; IFLA_IPTUN_FLAGS => form_of_flags(form),))
    }

    fn try_clone(&self, alloc: Global) -> Result<Self, AllocError> {
        rows!(clone_rows(self, alloc;
            InfoIpTunnel::Ipv4Flags(x) => Ok(InfoIpTunnel::Ipv4Flags(*x)),
            InfoIpTunnel::Ipv6SitFlags(x) => Ok(InfoIpTunnel::Ipv6SitFlags(*x)),
            InfoIpTunnel::Ipv6Flags(x) => Ok(InfoIpTunnel::Ipv6Flags(*x)),
        ))
    }
}
