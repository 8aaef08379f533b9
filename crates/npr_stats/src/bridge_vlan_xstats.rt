//! What went by a VLAN of a bridge: `struct bridge_vlan_xstats` of `linux/if_bridge.h`.

ghost use Rattle.std.specs.Prelude.{◌≡◌, IfOk, IfErr};
ghost use Rattle.{npr_base.specs.{Codec.{leading}, Refusal.{no_place}}, npr_stats.specs.BridgeVlanXstats.{bridge_vlan_xstats}};

use npr_base::{DecodeError, EmitError, Emitable, leading_octets, octets_at, write_array};

/// What went by a VLAN of a bridge.
///
/// Layout (`struct bridge_vlan_xstats` of `linux/if_bridge.h`), 40 bytes: four numbers of 8 and two
/// of 2, little endian; four bytes more are not looked at, and written 0.
#[derive(Clone, Copy, Debug, Default, PartialEq, Eq)]
pub struct BridgeVlanXstats {
    /// Bytes received.
    pub rx_bytes: u64,
    /// Packets received.
    pub rx_packets: u64,
    /// Bytes sent.
    pub tx_bytes: u64,
    /// Packets sent.
    pub tx_packets: u64,
    /// The VLAN, a number of 12 bits.
    pub vid: u16,
    /// `BRIDGE_VLAN_INFO_*` of `linux/if_bridge.h`: what the VLAN is at that port.
    pub flags: u16,
}

impl BridgeVlanXstats {
    /// The values in the first 40 bytes; more are not looked at.
    ///
    /// # Errors
    /// `HeaderTooShort` below 40 bytes.
    pub fn parse(bytes: &[u8]) -> Result<Self, DecodeError>
        ensures ok { IfOk result (λ x. (leading bridge_vlan_xstats).Reads bytes.now x) }
        ensures refused { IfErr result (λ e. (leading bridge_vlan_xstats).Wrong no_place bytes.now e) }
    {
        let b = leading_octets(bytes, 40)?;
        Ok(BridgeVlanXstats {
            rx_bytes: u64::from_le_bytes(octets_at(b, 0)),
            rx_packets: u64::from_le_bytes(octets_at(b, 8)),
            tx_bytes: u64::from_le_bytes(octets_at(b, 16)),
            tx_packets: u64::from_le_bytes(octets_at(b, 24)),
            vid: u16::from_le_bytes(octets_at(b, 32)),
            flags: u16::from_le_bytes(octets_at(b, 34)),
        })
    }

    /// The 40 bytes of the layout.
    pub fn to_bytes(&self) -> [u8; 40]
        ensures { result ≡ bridge_vlan_xstats.encode self.now }
    {
        let mut out = [0; 40];
        write_array(self.rx_bytes.to_le_bytes(), &mut out);
        write_array(self.rx_packets.to_le_bytes(), &mut out[8..]);
        write_array(self.tx_bytes.to_le_bytes(), &mut out[16..]);
        write_array(self.tx_packets.to_le_bytes(), &mut out[24..]);
        write_array(self.vid.to_le_bytes(), &mut out[32..]);
        write_array(self.flags.to_le_bytes(), &mut out[34..]);
        out
    }
}

impl Emitable for BridgeVlanXstats {
    ghost bytes = { bridge_vlan_xstats.encode };

    fn check(&self) -> Result<usize, EmitError> {
        Ok(40)
    }

    fn emit(&self, out: &mut [u8]) {
        write_array(self.to_bytes(), out);
    }
}
