//! An action that gives packets the metadata of tunnels, or takes them: `TCA_TUNNEL_KEY_*` of
//! `linux/tc_act/tc_tunnel_key.h`.

ghost use Rattle.{npr_base.specs.Tables.{shape_by, shape-by}, npr_tc_actions.specs.TunnelKeyOption.{family, table}};

use crate::enc_option::TcEncOption;
use crate::tcf::Tcf;
use crate::tunnel_key::TcTunnelKey;
use npr_base::{
    At, Attribute, DecodeError, DefaultNla, EmitError, Form, Ipv4Addr, Ipv6Addr, Looks, Nla,
    NlaBuffer, Place,
};
use std::alloc::{AllocError, Global};

/// An action that gives packets the metadata of tunnels, or takes them, by its name.
pub struct TcActionTunnelKey {}

impl TcActionTunnelKey {
    /// The name of its kind.
    pub const KIND: &'static str = "tunnel_key";
}

/// What is said of such an action: `TCA_TUNNEL_KEY_*` of `linux/tc_act/tc_tunnel_key.h`.
#[derive(Debug, Drop, PartialEq, Eq)]
pub enum TcActionTunnelKeyOption {
    /// `TCA_TUNNEL_KEY_TM`: when it was made and used.
    Tm(Tcf),
    /// `TCA_TUNNEL_KEY_PARMS`: what it does.
    Parms(TcTunnelKey),
    /// `TCA_TUNNEL_KEY_ENC_IPV4_SRC`: the address that the tunnel begins at.
    EncIpv4Src(Ipv4Addr),
    /// `TCA_TUNNEL_KEY_ENC_IPV4_DST`: the address that it ends at.
    EncIpv4Dst(Ipv4Addr),
    /// `TCA_TUNNEL_KEY_ENC_IPV6_SRC`: the address of version 6 that it begins at.
    EncIpv6Src(Ipv6Addr),
    /// `TCA_TUNNEL_KEY_ENC_IPV6_DST`: the address of version 6 that it ends at.
    EncIpv6Dst(Ipv6Addr),
    /// `TCA_TUNNEL_KEY_ENC_KEY_ID`: the key, or the network.
    EncKeyId(u32),
    /// `TCA_TUNNEL_KEY_ENC_DST_PORT`: the port that it ends at.
    EncDstPort(u16),
    /// `TCA_TUNNEL_KEY_NO_CSUM`: whether it goes without a checksum.
    NoCsum(bool),
    /// `TCA_TUNNEL_KEY_ENC_OPTS`: the options of the tunnel.
    EncOpts(Vec<TcEncOption>),
    /// `TCA_TUNNEL_KEY_ENC_TOS`: its type of service.
    EncTos(u8),
    /// `TCA_TUNNEL_KEY_ENC_TTL`: its time to live.
    EncTtl(u8),
    /// `TCA_TUNNEL_KEY_NO_FRAG`: no router may cut its packets.
    NoFrag,
    /// An attribute of another number, as it stands.
    Other(DefaultNla),
}

/// The rows of the table.
macro_rules! rows {
    ($body:ident ($($given:tt)*)) => {
        npr_base::$body!(($($given)*) TcActionTunnelKeyOption of TcActionTunnelKey {
            1 Tm(Tcf leading 32);
            2 Parms(TcTunnelKey leading 24);
            3 EncIpv4Src(octets4);
            4 EncIpv4Dst(octets4);
            5 EncIpv6Src(octets16);
            6 EncIpv6Dst(octets16);
            7 EncKeyId(be32);
            9 EncDstPort(be16);
            10 NoCsum(boolean);
            11 EncOpts(list TcEnc);
            12 EncTos(byte);
            13 EncTtl(byte);
            14 NoFrag;
        })
    };
}

impl Nla for TcActionTunnelKeyOption {
    ghost shape = { shape_by table };

    fn kind(&self) -> u16 {
        rows!(kind_rows(self))
    }

    fn is_nested(&self) -> bool {
        false
    }

    fn check_value(&self) -> Result<usize, EmitError> {
        Ok(rows!(len_rows(self)))
    }

    fn write_value(&self, out: &mut [u8]) -> usize {
        rows!(write_rows(self, out))
    }
}

impl Attribute for TcActionTunnelKeyOption {
    type Context = ();

    ghost family = { family };

    ghost shape_is = { shape-by table };

    #[tactic(auto, unfolding(crate::specs::TunnelKeyOption::attributes))]
    fn read_into<P: Place<Self>>(
        place: &mut P,
        alloc: Global,
        _context: (),
        item: &NlaBuffer<'_>,
        looks: &mut Looks,
    ) -> Result<(), DecodeError> {
        rows!(put_rows(place, alloc, item, looks))
    }

    #[tactic(auto, unfolding(crate::specs::TunnelKeyOption::attributes))]
    fn form(_context: (), number: u16) -> (At, Form) {
        rows!(form_rows(number))
    }

    fn try_clone(&self, alloc: Global) -> Result<Self, AllocError> {
        rows!(clone_rows(self, alloc))
    }
}
