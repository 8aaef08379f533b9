//! What holds for all classes of `htb`: `struct tc_htb_glob` of `linux/pkt_sched.h`.

ghost use Rattle.std.specs.Prelude.{◌≡◌, IfOk, IfErr};
ghost use Rattle.{npr_base.specs.{Codec.{leading}, Refusal.{no_place}}, npr_tc_qdiscs.specs.HtbGlob.{htb_glob}};

use npr_base::{DecodeError, EmitError, Emitable, leading_octets, octets_at, write_array};

/// What holds for all classes of `htb`.
///
/// Layout (`struct tc_htb_glob` of `linux/pkt_sched.h`), 20 bytes: five numbers of 4, little endian.
#[derive(Clone, Copy, Debug, Default, PartialEq, Eq)]
pub struct TcHtbGlob {
    /// The version, 3 in the high half; `TC_HTB_PROTOVER`.
    pub version: u32,
    /// What a rate is divided by for a quantum.
    pub rate2quantum: u32,
    /// The minor number of the class for packets that none claims.
    pub defcls: u32,
    /// What is told to the log; kernels do not look at it.
    pub debug: u32,
    /// How many packets went by without a class; kernels alone write it.
    pub direct_pkts: u32,
}

impl TcHtbGlob {
    /// The values in the first 20 bytes; more are not looked at.
    ///
    /// # Errors
    /// `HeaderTooShort` below 20 bytes.
    pub fn parse(bytes: &[u8]) -> Result<Self, DecodeError>
        ensures ok { IfOk result (λ x. (leading htb_glob).Reads bytes.now x) }
        ensures refused { IfErr result (λ e. (leading htb_glob).Wrong no_place bytes.now e) }
    {
        let b = leading_octets(bytes, 20)?;
        Ok(TcHtbGlob {
            version: u32::from_le_bytes(octets_at(b, 0)),
            rate2quantum: u32::from_le_bytes(octets_at(b, 4)),
            defcls: u32::from_le_bytes(octets_at(b, 8)),
            debug: u32::from_le_bytes(octets_at(b, 12)),
            direct_pkts: u32::from_le_bytes(octets_at(b, 16)),
        })
    }

    /// The 20 bytes of the layout.
    pub fn to_bytes(&self) -> [u8; 20]
        ensures { result ≡ htb_glob.encode self.now }
    {
        let mut out = [0; 20];
        write_array(self.version.to_le_bytes(), &mut out);
        write_array(self.rate2quantum.to_le_bytes(), &mut out[4..]);
        write_array(self.defcls.to_le_bytes(), &mut out[8..]);
        write_array(self.debug.to_le_bytes(), &mut out[12..]);
        write_array(self.direct_pkts.to_le_bytes(), &mut out[16..]);
        out
    }
}

impl Emitable for TcHtbGlob {
    ghost bytes = { htb_glob.encode };

    fn check(&self) -> Result<usize, EmitError> {
        Ok(20)
    }

    fn emit(&self, out: &mut [u8]) {
        write_array(self.to_bytes(), out);
    }
}
