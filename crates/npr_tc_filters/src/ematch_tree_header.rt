//! What stands in front of the tests of a filter: `struct tcf_ematch_tree_hdr` of `linux/pkt_cls.h`.

ghost use Rattle.std.specs.Prelude.{◌≡◌, IfOk, IfErr};
ghost use Rattle.{
  npr_base.specs.{Codec.{leading}, Refusal.{no_place}},
  npr_tc_filters.specs.EmatchTreeHeader.{ematch_tree_header},
};

use npr_base::{DecodeError, EmitError, Emitable, leading_octets, write_array};

/// The length of `struct tcf_ematch_tree_hdr` of `linux/pkt_cls.h`, in bytes.
const TCF_EMATCH_TREE_HDR_SIZE: usize = 4;

/// What stands in front of the tests of a filter.
///
/// Layout (`struct tcf_ematch_tree_hdr` of `linux/pkt_cls.h`), 4 bytes: two numbers of 2, little endian.
#[derive(Clone, Copy, Debug, Default, PartialEq, Eq)]
pub struct TcEmatchTreeHeader {
    /// How many tests a kernel looks at. It is not compared with the list, and written as it stands.
    pub nmatches: u16,
    /// What made them (`TCF_EM_PROG_*`).
    pub progid: u16,
}

impl TcEmatchTreeHeader {
    /// The values in the first 4 bytes; more are not looked at.
    ///
    /// # Errors
    /// `HeaderTooShort` below 4 bytes.
    pub fn parse(bytes: &[u8]) -> Result<Self, DecodeError>
        ensures ok { IfOk result (λ x. (leading ematch_tree_header).Reads bytes.now x) }
        ensures refused { IfErr result (λ e. (leading ematch_tree_header).Wrong no_place bytes.now e) }
    {
        let b = leading_octets(bytes, TCF_EMATCH_TREE_HDR_SIZE)?;
        Ok(TcEmatchTreeHeader {
            nmatches: u16::from_le_bytes([b[0], b[1]]),
            progid: u16::from_le_bytes([b[2], b[3]]),
        })
    }

    /// The 4 bytes of the layout.
    pub fn to_bytes(&self) -> [u8; 4]
        ensures { result ≡ ematch_tree_header.encode self.now }
    {
        let [a0, a1] = self.nmatches.to_le_bytes();
        let [b0, b1] = self.progid.to_le_bytes();
        [a0, a1, b0, b1]
    }
}

impl Emitable for TcEmatchTreeHeader {
    ghost bytes = { ematch_tree_header.encode };

    fn check(&self) -> Result<usize, EmitError> {
        Ok(TCF_EMATCH_TREE_HDR_SIZE)
    }

    fn emit(&self, out: &mut [u8]) {
        write_array(self.to_bytes(), out);
    }
}
