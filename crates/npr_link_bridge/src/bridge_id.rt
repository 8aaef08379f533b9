//! The id of a bridge: `struct ifla_bridge_id` of `linux/if_link.h`.

ghost use Rattle.std.specs.Prelude.{◌≡◌, ◌<◌, IfOk, IfErr};
ghost use Rattle.{npr_base.specs.{Codec.{leading}, Refusal.{no_place}}, npr_link_bridge.specs.BridgeId.{bridge_id}};

use npr_base::{DecodeError, EmitError, Emitable, leading_octets, octets_at, write_array};

/// The id of a bridge (IEEE 802.1D).
#[derive(Clone, Copy, Debug, Default, PartialEq, Eq)]
pub struct BridgeId {
    /// The priority; the least is the root.
    pub priority: u16,
    /// The address.
    pub address: [u8; 6],
}

/// A [`BridgeId`] is its own layout: 8 bytes, the priority in 2, big endian, and the address.
pub type BridgeIdBuffer = BridgeId;

impl BridgeId {
    /// The id in the first 8 bytes; more are not looked at.
    ///
    /// # Errors
    /// `HeaderTooShort` below 8 bytes.
    pub fn parse(bytes: &[u8]) -> Result<Self, DecodeError>
        ensures ok { IfOk result (λ x. (leading bridge_id).Reads bytes.now x) }
        ensures refused { IfErr result (λ e. (leading bridge_id).Wrong no_place bytes.now e) }
    {
        let b = leading_octets(bytes, 8)?;
        Ok(BridgeId {
            priority: u16::from_be_bytes(octets_at(b, 0)),
            address: octets_at(b, 2),
        })
    }

    /// The 8 bytes of the layout.
    pub fn to_bytes(&self) -> [u8; 8]
        ensures { result ≡ bridge_id.encode self.now }
    {
        let [a, b] = self.priority.to_be_bytes();
        let [c, d, e, f, g, h] = self.address;
        [a, b, c, d, e, f, g, h]
    }
}

impl Emitable for BridgeId {
    ghost bytes = { bridge_id.encode };

    fn check(&self) -> Result<usize, EmitError> {
        Ok(8)
    }

    fn emit(&self, out: &mut [u8]) {
        write_array(self.to_bytes(), out);
    }
}
