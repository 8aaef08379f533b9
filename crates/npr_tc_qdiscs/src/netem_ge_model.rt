//! The loss of packets by two states: `struct tc_netem_gemodel` of `linux/pkt_sched.h`.

ghost use Rattle.std.specs.Prelude.{◌≡◌, IfOk, IfErr};
ghost use Rattle.{npr_base.specs.{Codec.{leading}, Refusal.{no_place}}, npr_tc_qdiscs.specs.NetemGeModel.{netem_ge_model}};

use npr_base::{DecodeError, EmitError, Emitable, leading_octets, octets_at, write_array};

/// The loss of packets by two states.
///
/// Layout (`struct tc_netem_gemodel` of `linux/pkt_sched.h`), 16 bytes: four numbers of 4, little
/// endian.
#[derive(Clone, Copy, Debug, Default, PartialEq, Eq)]
pub struct TcNetemGeModel {
    /// From the good state to the bad one: the share of the greatest number.
    pub p: u32,
    /// From the bad one to the good one, likewise.
    pub r: u32,
    /// The loss in the bad state.
    pub h: u32,
    /// The loss in the good state.
    pub k1: u32,
}

impl TcNetemGeModel {
    /// The values in the first 16 bytes; more are not looked at.
    ///
    /// # Errors
    /// `HeaderTooShort` below 16 bytes.
    pub fn parse(bytes: &[u8]) -> Result<Self, DecodeError>
        ensures ok { IfOk result (λ x. (leading netem_ge_model).Reads bytes.now x) }
        ensures refused { IfErr result (λ e. (leading netem_ge_model).Wrong no_place bytes.now e) }
    {
        let b = leading_octets(bytes, 16)?;
        Ok(TcNetemGeModel {
            p: u32::from_le_bytes(octets_at(b, 0)),
            r: u32::from_le_bytes(octets_at(b, 4)),
            h: u32::from_le_bytes(octets_at(b, 8)),
            k1: u32::from_le_bytes(octets_at(b, 12)),
        })
    }

    /// The 16 bytes of the layout.
    pub fn to_bytes(&self) -> [u8; 16]
        ensures { result ≡ netem_ge_model.encode self.now }
    {
        let mut out = [0; 16];
        write_array(self.p.to_le_bytes(), &mut out);
        write_array(self.r.to_le_bytes(), &mut out[4..]);
        write_array(self.h.to_le_bytes(), &mut out[8..]);
        write_array(self.k1.to_le_bytes(), &mut out[12..]);
        out
    }
}

impl Emitable for TcNetemGeModel {
    ghost bytes = { netem_ge_model.encode };

    fn check(&self) -> Result<usize, EmitError> {
        Ok(16)
    }

    fn emit(&self, out: &mut [u8]) {
        write_array(self.to_bytes(), out);
    }
}
