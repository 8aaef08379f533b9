//! How a table of sizes is asked: `struct tc_sizespec` of `linux/pkt_sched.h`.

ghost use Rattle.std.specs.Prelude.{◌≡◌, IfOk, IfErr};
ghost use Rattle.{npr_base.specs.{Codec.{leading}, Refusal.{no_place}}, npr_tc_qdiscs.specs.SizeSpec.{size_spec}};

use npr_base::{DecodeError, EmitError, Emitable, leading_octets, octets_at, write_array};

/// How the size of a packet is looked up in a table of sizes.
///
/// Layout (`struct tc_sizespec` of `linux/pkt_sched.h`), 24 bytes: two bytes, a signed number of 2, one of 4, and four
/// numbers of 4, little endian.
#[derive(Clone, Copy, Debug, Default, PartialEq, Eq)]
pub struct TcSizeSpec {
    /// By how many bits a size is shifted down to its place in the table.
    pub cell_log: u8,
    /// By how many bits what stands there is shifted up.
    pub size_log: u8,
    /// What is added to the size before.
    pub cell_align: i16,
    /// How many bytes a packet has beside its own.
    pub overhead: i32,
    /// The layer of the link: `enum tc_link_layer` of the same header.
    pub linklayer: u32,
    /// The smallest size.
    pub mpu: u32,
    /// The largest.
    pub mtu: u32,
    /// How many sizes the table has.
    pub tsize: u32,
}

impl TcSizeSpec {
    /// The values in the first 24 bytes; more are not looked at.
    ///
    /// # Errors
    /// `HeaderTooShort` below 24 bytes.
    pub fn parse(bytes: &[u8]) -> Result<Self, DecodeError>
        ensures ok { IfOk result (λ x. (leading size_spec).Reads bytes.now x) }
        ensures refused { IfErr result (λ e. (leading size_spec).Wrong no_place bytes.now e) }
    {
        let b = leading_octets(bytes, 24)?;
        Ok(TcSizeSpec {
            cell_log: b[0],
            size_log: b[1],
            cell_align: i16::from_le_bytes(octets_at(b, 2)),
            overhead: i32::from_le_bytes(octets_at(b, 4)),
            linklayer: u32::from_le_bytes(octets_at(b, 8)),
            mpu: u32::from_le_bytes(octets_at(b, 12)),
            mtu: u32::from_le_bytes(octets_at(b, 16)),
            tsize: u32::from_le_bytes(octets_at(b, 20)),
        })
    }

    /// The 24 bytes of the layout.
    pub fn to_bytes(&self) -> [u8; 24]
        ensures { result ≡ size_spec.encode self.now }
    {
        let [c0, c1] = self.cell_align.to_le_bytes();
        let [d0, d1, d2, d3] = self.overhead.to_le_bytes();
        let [e0, e1, e2, e3] = self.linklayer.to_le_bytes();
        let [f0, f1, f2, f3] = self.mpu.to_le_bytes();
        let [g0, g1, g2, g3] = self.mtu.to_le_bytes();
        let [h0, h1, h2, h3] = self.tsize.to_le_bytes();
        let (a, b) = (self.cell_log, self.size_log);
        [
            a, b, c0, c1, d0, d1, d2, d3, e0, e1, e2, e3, f0, f1, f2, f3, g0, g1, g2, g3, h0, h1,
            h2, h3,
        ]
    }
}

impl Emitable for TcSizeSpec {
    ghost bytes = { size_spec.encode };

    fn check(&self) -> Result<usize, EmitError> {
        Ok(24)
    }

    fn emit(&self, out: &mut [u8]) {
        write_array(self.to_bytes(), out);
    }
}
