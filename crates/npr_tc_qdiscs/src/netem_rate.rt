//! At which rate packets go by `netem`: `struct tc_netem_rate` of `linux/pkt_sched.h`.

ghost use Rattle.std.specs.Prelude.{◌≡◌, IfOk, IfErr};
ghost use Rattle.{npr_base.specs.{Codec.{leading}, Refusal.{no_place}}, npr_tc_qdiscs.specs.NetemRate.{netem_rate}};

use npr_base::{DecodeError, EmitError, Emitable, leading_octets, octets_at, write_array};

/// At which rate packets go by `netem`.
///
/// Layout (`struct tc_netem_rate` of `linux/pkt_sched.h`), 16 bytes: a number, a signed one, a number,
/// and a signed one, of 4 each, little endian.
#[derive(Clone, Copy, Debug, Default, PartialEq, Eq)]
pub struct TcNetemRate {
    /// How many bytes go in a second; the greatest number where an attribute of 8 bytes has them.
    pub rate: u32,
    /// How many bytes a packet has beside its own.
    pub packet_overhead: i32,
    /// The bytes of a cell; 0 for none.
    pub cell_size: u32,
    /// How many bytes a cell has beside its own.
    pub cell_overhead: i32,
}

impl TcNetemRate {
    /// The values in the first 16 bytes; more are not looked at.
    ///
    /// # Errors
    /// `HeaderTooShort` below 16 bytes.
    pub fn parse(bytes: &[u8]) -> Result<Self, DecodeError>
        ensures ok { IfOk result (λ x. (leading netem_rate).Reads bytes.now x) }
        ensures refused { IfErr result (λ e. (leading netem_rate).Wrong no_place bytes.now e) }
    {
        let b = leading_octets(bytes, 16)?;
        Ok(TcNetemRate {
            rate: u32::from_le_bytes(octets_at(b, 0)),
            packet_overhead: i32::from_le_bytes(octets_at(b, 4)),
            cell_size: u32::from_le_bytes(octets_at(b, 8)),
            cell_overhead: i32::from_le_bytes(octets_at(b, 12)),
        })
    }

    /// The 16 bytes of the layout.
    pub fn to_bytes(&self) -> [u8; 16]
        ensures { result ≡ netem_rate.encode self.now }
    {
        let mut out = [0; 16];
        write_array(self.rate.to_le_bytes(), &mut out);
        write_array(self.packet_overhead.to_le_bytes(), &mut out[4..]);
        write_array(self.cell_size.to_le_bytes(), &mut out[8..]);
        write_array(self.cell_overhead.to_le_bytes(), &mut out[12..]);
        out
    }
}

impl Emitable for TcNetemRate {
    ghost bytes = { netem_rate.encode };

    fn check(&self) -> Result<usize, EmitError> {
        Ok(16)
    }

    fn emit(&self, out: &mut [u8]) {
        write_array(self.to_bytes(), out);
    }
}
