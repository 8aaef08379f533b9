//! The bands of `prio`: `struct tc_prio_qopt` of `linux/pkt_sched.h`.

ghost use Rattle.std.specs.Prelude.{◌≡◌, IfOk, IfErr};
ghost use Rattle.{npr_base.specs.{Codec.{leading}, Refusal.{no_place}}, npr_tc_qdiscs.specs.PrioQopt.{prio_qopt}};

use npr_base::{DecodeError, EmitError, Emitable, leading_octets, octets_at, write_array};

/// The bands of `prio`.
///
/// Layout (`struct tc_prio_qopt` of `linux/pkt_sched.h`), 20 bytes: a signed number of 4, and 16 bytes,
/// little endian.
#[derive(Clone, Copy, Debug, Default, PartialEq, Eq)]
pub struct TcPrioQopt {
    /// How many bands there are.
    pub bands: i32,
    /// The band of each priority of a packet.
    pub priomap: [u8; 16],
}

impl TcPrioQopt {
    /// The values in the first 20 bytes; more are not looked at.
    ///
    /// # Errors
    /// `HeaderTooShort` below 20 bytes.
    pub fn parse(bytes: &[u8]) -> Result<Self, DecodeError>
        ensures ok { IfOk result (λ x. (leading prio_qopt).Reads bytes.now x) }
        ensures refused { IfErr result (λ e. (leading prio_qopt).Wrong no_place bytes.now e) }
    {
        let b = leading_octets(bytes, 20)?;
        Ok(TcPrioQopt {
            bands: i32::from_le_bytes(octets_at(b, 0)),
            priomap: octets_at(b, 4),
        })
    }

    /// The 20 bytes of the layout.
    pub fn to_bytes(&self) -> [u8; 20]
        ensures { result ≡ prio_qopt.encode self.now }
    {
        let [a0, a1, a2, a3] = self.bands.to_le_bytes();
        let [
            b0,
            b1,
            b2,
            b3,
            b4,
            b5,
            b6,
            b7,
            b8,
            b9,
            b10,
            b11,
            b12,
            b13,
            b14,
            b15,
        ] = self.priomap;
        [
            a0, a1, a2, a3, b0, b1, b2, b3, b4, b5, b6, b7, b8, b9, b10, b11, b12, b13, b14, b15,
        ]
    }
}

impl Emitable for TcPrioQopt {
    ghost bytes = { prio_qopt.encode };

    fn check(&self) -> Result<usize, EmitError> {
        Ok(20)
    }

    fn emit(&self, out: &mut [u8]) {
        write_array(self.to_bytes(), out);
    }
}
