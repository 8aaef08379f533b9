//! What is said of each test of a filter: `struct tcf_ematch_hdr` of `linux/pkt_cls.h`.

ghost use Rattle.std.specs.Prelude.{◌≡◌, IfOk, IfErr};
ghost use Rattle.{npr_base.specs.{Codec.{leading}, Refusal.{no_place}}, npr_tc_filters.specs.EmatchHeader.{ematch_header}};

use npr_base::{DecodeError, EmitError, Emitable, leading_octets, write_array};

/// The length of `struct tcf_ematch_hdr` of `linux/pkt_cls.h`, in bytes.
pub(crate) const TCF_EMATCH_HDR_SIZE: usize = 8;

/// What is said of each test of a filter.
///
/// Layout (`struct tcf_ematch_hdr` of `linux/pkt_cls.h`), 8 bytes: three numbers of 2, little endian;
/// two bytes more are not looked at, and written 0.
#[derive(Clone, Copy, Debug, Default, PartialEq, Eq)]
pub struct TcEmatchHeader {
    /// A number that the program gives it.
    pub matchid: u16,
    /// What is tested (`TCF_EM_*` of the same header).
    pub kind: u16,
    /// How its answer goes with that of the next test (`TCF_EM_REL_*`), and whether it is turned
    /// (`TCF_EM_INVERT`).
    pub flags: u16,
}

impl TcEmatchHeader {
    /// The values in the first 8 bytes; more are not looked at.
    ///
    /// # Errors
    /// `HeaderTooShort` below 8 bytes.
    pub fn parse(bytes: &[u8]) -> Result<Self, DecodeError>
        ensures ok { IfOk result (λ x. (leading ematch_header).Reads bytes.now x) }
        ensures refused { IfErr result (λ e. (leading ematch_header).Wrong no_place bytes.now e) }
    {
        let b = leading_octets(bytes, TCF_EMATCH_HDR_SIZE)?;
        Ok(TcEmatchHeader {
            matchid: u16::from_le_bytes([b[0], b[1]]),
            kind: u16::from_le_bytes([b[2], b[3]]),
            flags: u16::from_le_bytes([b[4], b[5]]),
        })
    }

    /// The 8 bytes of the layout.
    pub fn to_bytes(&self) -> [u8; 8]
        ensures { result ≡ ematch_header.encode self.now }
    {
        let [a0, a1] = self.matchid.to_le_bytes();
        let [b0, b1] = self.kind.to_le_bytes();
        let [c0, c1] = self.flags.to_le_bytes();
        [a0, a1, b0, b1, c0, c1, 0, 0]
    }
}

impl Emitable for TcEmatchHeader {
    ghost bytes = { ematch_header.encode };

    fn check(&self) -> Result<usize, EmitError> {
        Ok(TCF_EMATCH_HDR_SIZE)
    }

    fn emit(&self, out: &mut [u8]) {
        write_array(self.to_bytes(), out);
    }
}
