//! What an action does with the metadata of tunnels: `struct tc_tunnel_key` of
//! `linux/tc_act/tc_tunnel_key.h`.

ghost use Rattle.std.specs.Prelude.{◌≡◌, IfOk, IfErr};
ghost use Rattle.{npr_base.specs.{Codec.{leading}, Refusal.{no_place}}, npr_tc_actions.specs.TunnelKey.{tunnel_key}};

use crate::generic::TcActionGeneric;
use npr_base::{DecodeError, EmitError, Emitable, leading_octets, octets_at, write_array};

/// What an action does with the metadata of tunnels: `struct tc_tunnel_key` of
/// `linux/tc_act/tc_tunnel_key.h`, 24 bytes, what every action has, and a signed number of 4 bytes,
/// little endian.
#[derive(Clone, Copy, Debug, Default, PartialEq, Eq)]
pub struct TcTunnelKey {
    /// What every action has.
    pub generic: TcActionGeneric,
    /// 1 (`TCA_TUNNEL_KEY_ACT_SET`) gives a packet metadata, 2 (`TCA_TUNNEL_KEY_ACT_RELEASE`) takes them.
    pub t_action: i32,
}

impl TcTunnelKey {
    /// The values in the first 24 bytes; more are not looked at.
    ///
    /// # Errors
    /// `HeaderTooShort` below 24 bytes.
    pub fn parse(bytes: &[u8]) -> Result<Self, DecodeError>
        ensures ok { IfOk result (λ x. (leading tunnel_key).Reads bytes.now x) }
        ensures refused { IfErr result (λ e. (leading tunnel_key).Wrong no_place bytes.now e) }
    {
        let b = leading_octets(bytes, 24)?;
        Ok(TcTunnelKey {
            generic: TcActionGeneric::in_front(b),
            t_action: i32::from_le_bytes(octets_at(b, 20)),
        })
    }

    /// The 24 bytes of the layout.
    pub fn to_bytes(&self) -> [u8; 24]
        ensures { result ≡ tunnel_key.encode self.now }
    {
        let [
            g0,
            g1,
            g2,
            g3,
            g4,
            g5,
            g6,
            g7,
            g8,
            g9,
            g10,
            g11,
            g12,
            g13,
            g14,
            g15,
            g16,
            g17,
            g18,
            g19,
        ] = self.generic.to_bytes();
        let [a0, a1, a2, a3] = self.t_action.to_le_bytes();
        [
            g0, g1, g2, g3, g4, g5, g6, g7, g8, g9, g10, g11, g12, g13, g14, g15, g16, g17, g18,
            g19, a0, a1, a2, a3,
        ]
    }
}

impl Emitable for TcTunnelKey {
    ghost bytes = { tunnel_key.encode };

    fn check(&self) -> Result<usize, EmitError> {
        Ok(24)
    }

    fn emit(&self, out: &mut [u8]) {
        write_array(self.to_bytes(), out);
    }
}
