//! What a device counted by itself: `struct rtnl_hw_stats64` of `linux/if_link.h`.

ghost use Rattle.std.specs.Prelude.{◌≡◌, IfOk, IfErr};
ghost use Rattle.{npr_base.specs.{Codec.{leading}, Refusal.{no_place}}, npr_stats.specs.HwStats64.{hw_stats64}};

use npr_base::{DecodeError, EmitError, Emitable, leading_octets, octets_at, write_array};

/// What a device counted by itself.
///
/// Layout (`struct rtnl_hw_stats64` of `linux/if_link.h`), 72 bytes: nine numbers of 8, little
/// endian.
#[derive(Clone, Copy, Debug, Default, PartialEq, Eq)]
pub struct HwStats64 {
    /// Packets received.
    pub rx_packets: u64,
    /// Packets sent.
    pub tx_packets: u64,
    /// Bytes received.
    pub rx_bytes: u64,
    /// Bytes sent.
    pub tx_bytes: u64,
    /// Bad packets received.
    pub rx_errors: u64,
    /// Packets that could not be sent.
    pub tx_errors: u64,
    /// Packets received and dropped.
    pub rx_dropped: u64,
    /// Packets dropped on the way out.
    pub tx_dropped: u64,
    /// Multicast packets received.
    pub multicast: u64,
}

impl HwStats64 {
    /// The values in the first 72 bytes; more are not looked at.
    ///
    /// # Errors
    /// `HeaderTooShort` below 72 bytes.
    pub fn parse(bytes: &[u8]) -> Result<Self, DecodeError>
        ensures ok { IfOk result (λ x. (leading hw_stats64).Reads bytes.now x) }
        ensures refused { IfErr result (λ e. (leading hw_stats64).Wrong no_place bytes.now e) }
    {
        let b = leading_octets(bytes, 72)?;
        Ok(HwStats64 {
            rx_packets: u64::from_le_bytes(octets_at(b, 0)),
            tx_packets: u64::from_le_bytes(octets_at(b, 8)),
            rx_bytes: u64::from_le_bytes(octets_at(b, 16)),
            tx_bytes: u64::from_le_bytes(octets_at(b, 24)),
            rx_errors: u64::from_le_bytes(octets_at(b, 32)),
            tx_errors: u64::from_le_bytes(octets_at(b, 40)),
            rx_dropped: u64::from_le_bytes(octets_at(b, 48)),
            tx_dropped: u64::from_le_bytes(octets_at(b, 56)),
            multicast: u64::from_le_bytes(octets_at(b, 64)),
        })
    }

    /// The 72 bytes of the layout.
    pub fn to_bytes(&self) -> [u8; 72]
        ensures { result ≡ hw_stats64.encode self.now }
    {
        let mut out = [0; 72];
        write_array(self.rx_packets.to_le_bytes(), &mut out);
        write_array(self.tx_packets.to_le_bytes(), &mut out[8..]);
        write_array(self.rx_bytes.to_le_bytes(), &mut out[16..]);
        write_array(self.tx_bytes.to_le_bytes(), &mut out[24..]);
        write_array(self.rx_errors.to_le_bytes(), &mut out[32..]);
        write_array(self.tx_errors.to_le_bytes(), &mut out[40..]);
        write_array(self.rx_dropped.to_le_bytes(), &mut out[48..]);
        write_array(self.tx_dropped.to_le_bytes(), &mut out[56..]);
        write_array(self.multicast.to_le_bytes(), &mut out[64..]);
        out
    }
}

impl Emitable for HwStats64 {
    ghost bytes = { hw_stats64.encode };

    fn check(&self) -> Result<usize, EmitError> {
        Ok(72)
    }

    fn emit(&self, out: &mut [u8]) {
        write_array(self.to_bytes(), out);
    }
}
