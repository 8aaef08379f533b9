//! A range of ports: `struct fib_rule_port_range` of `linux/fib_rules.h`.

ghost use Rattle.std.specs.Prelude.{◌≡◌, ◌<◌, IfOk, IfErr};
ghost use Rattle.{npr_base.specs.{Codec.{exactly}, Refusal.{no_place}}, npr_rule.specs.PortRange.{port_range}};

use npr_base::{At, DecodeError, EmitError, Emitable, read_octets, write_array};

/// A range of ports, both ends included.
///
/// Layout (`struct fib_rule_port_range` of `linux/fib_rules.h`), 4 bytes: start and end, 2 bytes each, little
/// endian.
#[derive(Clone, Copy, Debug, PartialEq, Eq)]
pub struct RulePortRange {
    /// The first.
    pub start: u16,
    /// The last.
    pub end: u16,
}

impl RulePortRange {
    /// The range of 4 bytes.
    ///
    /// # Errors
    /// `ValueLength` at another length.
    pub fn parse(bytes: &[u8]) -> Result<Self, DecodeError>
        ensures ok { IfOk result (λ range. (exactly port_range).Reads bytes.now range) }
        ensures refused { IfErr result (λ e. (exactly port_range).Wrong no_place bytes.now e) }
    {
        Self::read(bytes, At::NO_PLACE)
    }

    /// The range of 4 bytes at a place.
    pub(crate) fn read(bytes: &[u8], at: At) -> Result<Self, DecodeError>
        ensures ok { IfOk result (λ range. (exactly port_range).Reads bytes.now range) }
        ensures refused { IfErr result (λ e. (exactly port_range).Wrong at bytes.now e) }
    {
        let [a, b, c, d] = read_octets::<4>(bytes, at)?;
        Ok(RulePortRange {
            start: u16::from_le_bytes([a, b]),
            end: u16::from_le_bytes([c, d]),
        })
    }

    /// The 4 bytes of the layout.
    pub fn to_bytes(&self) -> [u8; 4]
        ensures { result ≡ port_range.encode self.now }
    {
        let [a, b] = self.start.to_le_bytes();
        let [c, d] = self.end.to_le_bytes();
        [a, b, c, d]
    }
}

impl Emitable for RulePortRange {
    ghost bytes = { port_range.encode };

    fn check(&self) -> Result<usize, EmitError> {
        Ok(4)
    }

    fn emit(&self, out: &mut [u8]) {
        write_array(self.to_bytes(), out);
    }
}
