//! The loss of packets by four states: `struct tc_netem_gimodel` of `linux/pkt_sched.h`.

ghost use Rattle.std.specs.Prelude.{◌≡◌, IfOk, IfErr};
ghost use Rattle.{npr_base.specs.{Codec.{leading}, Refusal.{no_place}}, npr_tc_qdiscs.specs.NetemGiModel.{netem_gi_model}};

use npr_base::{DecodeError, EmitError, Emitable, leading_octets, octets_at, write_array};

/// The loss of packets by four states.
///
/// Layout (`struct tc_netem_gimodel` of `linux/pkt_sched.h`), 20 bytes: five numbers of 4, little
/// endian.
#[derive(Clone, Copy, Debug, Default, PartialEq, Eq)]
pub struct TcNetemGiModel {
    /// From state 1 to state 3: the share of the greatest number.
    pub p13: u32,
    /// From 3 to 1, likewise.
    pub p31: u32,
    /// From 3 to 2.
    pub p32: u32,
    /// From 1 to 4.
    pub p14: u32,
    /// From 2 to 3.
    pub p23: u32,
}

impl TcNetemGiModel {
    /// The values in the first 20 bytes; more are not looked at.
    ///
    /// # Errors
    /// `HeaderTooShort` below 20 bytes.
    pub fn parse(bytes: &[u8]) -> Result<Self, DecodeError>
        ensures ok { IfOk result (λ x. (leading netem_gi_model).Reads bytes.now x) }
        ensures refused { IfErr result (λ e. (leading netem_gi_model).Wrong no_place bytes.now e) }
    {
        let b = leading_octets(bytes, 20)?;
        Ok(TcNetemGiModel {
            p13: u32::from_le_bytes(octets_at(b, 0)),
            p31: u32::from_le_bytes(octets_at(b, 4)),
            p32: u32::from_le_bytes(octets_at(b, 8)),
            p14: u32::from_le_bytes(octets_at(b, 12)),
            p23: u32::from_le_bytes(octets_at(b, 16)),
        })
    }

    /// The 20 bytes of the layout.
    pub fn to_bytes(&self) -> [u8; 20]
        ensures { result ≡ netem_gi_model.encode self.now }
    {
        let mut out = [0; 20];
        write_array(self.p13.to_le_bytes(), &mut out);
        write_array(self.p31.to_le_bytes(), &mut out[4..]);
        write_array(self.p32.to_le_bytes(), &mut out[8..]);
        write_array(self.p14.to_le_bytes(), &mut out[12..]);
        write_array(self.p23.to_le_bytes(), &mut out[16..]);
        out
    }
}

impl Emitable for TcNetemGiModel {
    ghost bytes = { netem_gi_model.encode };

    fn check(&self) -> Result<usize, EmitError> {
        Ok(20)
    }

    fn emit(&self, out: &mut [u8]) {
        write_array(self.to_bytes(), out);
    }
}
