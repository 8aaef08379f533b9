//! An instruction of a classic program: `struct sock_filter` of `linux/filter.h`.

ghost use Rattle.std.specs.Prelude.{◌≡◌, IfOk, IfErr};
ghost use Rattle.{npr_base.specs.{Codec.{leading}, Refusal.{no_place}}, npr_tc_actions.specs.BpfInstruction.{instruction, instruction_width}};

use npr_base::{Block, DecodeError, EmitError, Emitable, leading_octets, octets_at, write_array};

/// An instruction of a classic program.
///
/// Layout (`struct sock_filter` of `linux/filter.h`), 8 bytes: a number of 2, two bytes, and a number
/// of 4, little endian.
#[derive(Clone, Copy, Debug, Default, PartialEq, Eq)]
pub struct TcBpfInstruction {
    /// What it does.
    pub code: u16,
    /// How many instructions are passed over where it is true.
    pub jt: u8,
    /// How many where it is not.
    pub jf: u8,
    /// What it does it with.
    pub k: u32,
}

impl TcBpfInstruction {
    /// The values in the first 8 bytes; more are not looked at.
    ///
    /// # Errors
    /// `HeaderTooShort` below 8 bytes.
    pub fn parse(bytes: &[u8]) -> Result<Self, DecodeError>
        ensures ok { IfOk result (λ x. (leading instruction).Reads bytes.now x) }
        ensures refused { IfErr result (λ e. (leading instruction).Wrong no_place bytes.now e) }
    {
        Ok(Self::in_front(leading_octets(bytes, 8)?))
    }

    /// The 8 bytes of the layout.
    pub fn to_bytes(&self) -> [u8; 8]
        ensures { result ≡ instruction.encode self.now }
    {
        let [a0, a1] = self.code.to_le_bytes();
        let [d0, d1, d2, d3] = self.k.to_le_bytes();
        [a0, a1, self.jt, self.jf, d0, d1, d2, d3]
    }
}

impl Emitable for TcBpfInstruction {
    ghost bytes = { instruction.encode };

    fn check(&self) -> Result<usize, EmitError> {
        Ok(8)
    }

    fn emit(&self, out: &mut [u8]) {
        write_array(self.to_bytes(), out);
    }
}

impl Block for TcBpfInstruction {
    ghost width = { instruction_width };

    fn zero() -> Self {
        Self::default()
    }

    fn size() -> usize {
        8
    }

    fn in_front(b: &[u8]) -> Self {
        TcBpfInstruction {
            code: u16::from_le_bytes(octets_at(b, 0)),
            jt: b[2],
            jf: b[3],
            k: u32::from_le_bytes(octets_at(b, 4)),
        }
    }

    fn write(self, out: &mut [u8]) -> usize {
        write_array(self.to_bytes(), out)
    }
}
