//! When `red` drops: `struct tc_red_qopt` of `linux/pkt_sched.h`.

ghost use Rattle.std.specs.Prelude.{◌≡◌, IfOk, IfErr};
ghost use Rattle.{npr_base.specs.{Codec.{leading}, Refusal.{no_place}}, npr_tc_qdiscs.specs.RedQopt.{red_qopt}};

use npr_base::{DecodeError, EmitError, Emitable, leading_octets, octets_at, write_array};

/// When `red` drops.
///
/// Layout (`struct tc_red_qopt` of `linux/pkt_sched.h`), 16 bytes: three numbers of 4, and four bytes,
/// little endian.
#[derive(Clone, Copy, Debug, Default, PartialEq, Eq)]
pub struct TcRedQopt {
    /// How many bytes may wait.
    pub limit: u32,
    /// The mean length of the queue from which packets are dropped, in bytes.
    pub qth_min: u32,
    /// That from which each is.
    pub qth_max: u32,
    /// The weight of the newest length: 1 in 2 to this power.
    pub wlog: u8,
    /// How likely a packet is dropped between both: the logarithm.
    pub plog: u8,
    /// The cell of the table for times without packets: the logarithm.
    pub scell_log: u8,
    /// `TC_RED_*` of the same header; all 8 bits.
    pub flags: u8,
}

impl TcRedQopt {
    /// The values in the first 16 bytes; more are not looked at.
    ///
    /// # Errors
    /// `HeaderTooShort` below 16 bytes.
    pub fn parse(bytes: &[u8]) -> Result<Self, DecodeError>
        ensures ok { IfOk result (λ x. (leading red_qopt).Reads bytes.now x) }
        ensures refused { IfErr result (λ e. (leading red_qopt).Wrong no_place bytes.now e) }
    {
        let b = leading_octets(bytes, 16)?;
        Ok(TcRedQopt {
            limit: u32::from_le_bytes(octets_at(b, 0)),
            qth_min: u32::from_le_bytes(octets_at(b, 4)),
            qth_max: u32::from_le_bytes(octets_at(b, 8)),
            wlog: b[12],
            plog: b[13],
            scell_log: b[14],
            flags: b[15],
        })
    }

    /// The 16 bytes of the layout.
    pub fn to_bytes(&self) -> [u8; 16]
        ensures { result ≡ red_qopt.encode self.now }
    {
        let mut out = [0; 16];
        write_array(self.limit.to_le_bytes(), &mut out);
        write_array(self.qth_min.to_le_bytes(), &mut out[4..]);
        write_array(self.qth_max.to_le_bytes(), &mut out[8..]);
        out[12] = self.wlog;
        out[13] = self.plog;
        out[14] = self.scell_log;
        out[15] = self.flags;
        out
    }
}

impl Emitable for TcRedQopt {
    ghost bytes = { red_qopt.encode };

    fn check(&self) -> Result<usize, EmitError> {
        Ok(16)
    }

    fn emit(&self, out: &mut [u8]) {
        write_array(self.to_bytes(), out);
    }
}
