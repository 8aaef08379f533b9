//! What the spanning tree protocol counted at a port of a bridge: `struct bridge_stp_xstats` of `linux/if_bridge.h`.

ghost use Rattle.std.specs.Prelude.{◌≡◌, IfOk, IfErr};
ghost use Rattle.{npr_base.specs.{Codec.{leading}, Refusal.{no_place}}, npr_stats.specs.BridgeStpXstats.{bridge_stp_xstats}};

use npr_base::{DecodeError, EmitError, Emitable, leading_octets, octets_at, write_array};

/// What the spanning tree protocol counted at a port of a bridge.
///
/// Layout (`struct bridge_stp_xstats` of `linux/if_bridge.h`), 48 bytes: six numbers of 8, little
/// endian.
#[derive(Clone, Copy, Debug, Default, PartialEq, Eq)]
pub struct BridgeStpXstats {
    /// How often the port came to block.
    pub transition_blk: u64,
    /// How often the port came to forward.
    pub transition_fwd: u64,
    /// Messages of the protocol received.
    pub rx_bpdu: u64,
    /// Messages of the protocol sent.
    pub tx_bpdu: u64,
    /// Notices of a changed topology received.
    pub rx_tcn: u64,
    /// Notices of a changed topology sent.
    pub tx_tcn: u64,
}

impl BridgeStpXstats {
    /// The values in the first 48 bytes; more are not looked at.
    ///
    /// # Errors
    /// `HeaderTooShort` below 48 bytes.
    pub fn parse(bytes: &[u8]) -> Result<Self, DecodeError>
        ensures ok { IfOk result (λ x. (leading bridge_stp_xstats).Reads bytes.now x) }
        ensures refused { IfErr result (λ e. (leading bridge_stp_xstats).Wrong no_place bytes.now e) }
    {
        let b = leading_octets(bytes, 48)?;
        Ok(BridgeStpXstats {
            transition_blk: u64::from_le_bytes(octets_at(b, 0)),
            transition_fwd: u64::from_le_bytes(octets_at(b, 8)),
            rx_bpdu: u64::from_le_bytes(octets_at(b, 16)),
            tx_bpdu: u64::from_le_bytes(octets_at(b, 24)),
            rx_tcn: u64::from_le_bytes(octets_at(b, 32)),
            tx_tcn: u64::from_le_bytes(octets_at(b, 40)),
        })
    }

    /// The 48 bytes of the layout.
    pub fn to_bytes(&self) -> [u8; 48]
        ensures { result ≡ bridge_stp_xstats.encode self.now }
    {
        let mut out = [0; 48];
        write_array(self.transition_blk.to_le_bytes(), &mut out);
        write_array(self.transition_fwd.to_le_bytes(), &mut out[8..]);
        write_array(self.rx_bpdu.to_le_bytes(), &mut out[16..]);
        write_array(self.tx_bpdu.to_le_bytes(), &mut out[24..]);
        write_array(self.rx_tcn.to_le_bytes(), &mut out[32..]);
        write_array(self.tx_tcn.to_le_bytes(), &mut out[40..]);
        out
    }
}

impl Emitable for BridgeStpXstats {
    ghost bytes = { bridge_stp_xstats.encode };

    fn check(&self) -> Result<usize, EmitError> {
        Ok(48)
    }

    fn emit(&self, out: &mut [u8]) {
        write_array(self.to_bytes(), out);
    }
}
