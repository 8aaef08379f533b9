//! A rate, as tables of rates are made for it: `struct tc_ratespec` of `linux/pkt_sched.h`.

ghost use Rattle.std.specs.Prelude.{◌≡◌, IfOk, IfErr};
ghost use Rattle.{npr_base.specs.{Codec.{leading}, Refusal.{no_place}}, npr_tc_values.specs.RateSpec.{rate_spec}};

use npr_base::{DecodeError, EmitError, Emitable, leading_octets, octets_at, write_array};

/// A rate, as tables of rates are made for it.
///
/// Layout (`struct tc_ratespec` of `linux/pkt_sched.h`), 12 bytes: two bytes, a number of 2, a signed
/// one of 2, one of 2, and one of 4, little endian.
#[derive(Clone, Copy, Debug, Default, PartialEq, Eq)]
pub struct TcRateSpec {
    /// By how many bits the size of a packet is shifted down to its place in the table of times.
    pub cell_log: u8,
    /// The layer of the link: `enum tc_link_layer` of the same header; in the low 4 bits.
    pub linklayer: u8,
    /// How many bytes a packet has beside its own.
    pub overhead: u16,
    /// What is added to the size before.
    pub cell_align: i16,
    /// The smallest size, in bytes.
    pub mpu: u16,
    /// How many bytes go in a second; the greatest number where an attribute of 8 bytes has them.
    pub rate: u32,
}

impl TcRateSpec {
    /// The values in the first 12 bytes; more are not looked at.
    ///
    /// # Errors
    /// `HeaderTooShort` below 12 bytes.
    pub fn parse(bytes: &[u8]) -> Result<Self, DecodeError>
        ensures ok { IfOk result (λ x. (leading rate_spec).Reads bytes.now x) }
        ensures refused { IfErr result (λ e. (leading rate_spec).Wrong no_place bytes.now e) }
    {
        let b = leading_octets(bytes, 12)?;
        Ok(Self::of(octets_at(&b, 0)))
    }

    /// The values of these bytes.
    pub fn of(b: [u8; 12]) -> Self
        ensures { result ≡ rate_spec.decode b }
    {
        TcRateSpec {
            cell_log: b[0],
            linklayer: b[1],
            overhead: u16::from_le_bytes(octets_at(&b, 2)),
            cell_align: i16::from_le_bytes(octets_at(&b, 4)),
            mpu: u16::from_le_bytes(octets_at(&b, 6)),
            rate: u32::from_le_bytes(octets_at(&b, 8)),
        }
    }

    /// The 12 bytes of the layout.
    pub fn to_bytes(&self) -> [u8; 12]
        ensures { result ≡ rate_spec.encode self.now }
    {
        let [c0, c1] = self.overhead.to_le_bytes();
        let [d0, d1] = self.cell_align.to_le_bytes();
        let [e0, e1] = self.mpu.to_le_bytes();
        let [f0, f1, f2, f3] = self.rate.to_le_bytes();
        [
            self.cell_log,
            self.linklayer,
            c0,
            c1,
            d0,
            d1,
            e0,
            e1,
            f0,
            f1,
            f2,
            f3,
        ]
    }
}

impl Emitable for TcRateSpec {
    ghost bytes = { rate_spec.encode };

    fn check(&self) -> Result<usize, EmitError> {
        Ok(12)
    }

    fn emit(&self, out: &mut [u8]) {
        write_array(self.to_bytes(), out);
    }
}
