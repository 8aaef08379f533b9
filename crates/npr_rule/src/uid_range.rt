//! A range of users: `struct fib_rule_uid_range` of `linux/fib_rules.h`.

ghost use Rattle.std.specs.Prelude.{◌≡◌, ◌<◌, IfOk, IfErr};
ghost use Rattle.{npr_base.specs.{Codec.{exactly}, Refusal.{no_place}}, npr_rule.specs.UidRange.{uid_range}};

use npr_base::{At, DecodeError, EmitError, Emitable, read_octets, write_array};

/// A range of users, both ends included.
///
/// Layout (`struct fib_rule_uid_range` of `linux/fib_rules.h`), 8 bytes: start and end, 4 bytes each, little
/// endian.
#[derive(Clone, Copy, Debug, PartialEq, Eq)]
pub struct RuleUidRange {
    /// The first.
    pub start: u32,
    /// The last.
    pub end: u32,
}

impl RuleUidRange {
    /// The range of 8 bytes.
    ///
    /// # Errors
    /// `ValueLength` at another length.
    pub fn parse(bytes: &[u8]) -> Result<Self, DecodeError>
        ensures ok { IfOk result (λ range. (exactly uid_range).Reads bytes.now range) }
        ensures refused { IfErr result (λ e. (exactly uid_range).Wrong no_place bytes.now e) }
    {
        Self::read(bytes, At::NO_PLACE)
    }

    /// The range of 8 bytes at a place.
    pub(crate) fn read(bytes: &[u8], at: At) -> Result<Self, DecodeError>
        ensures ok { IfOk result (λ range. (exactly uid_range).Reads bytes.now range) }
        ensures refused { IfErr result (λ e. (exactly uid_range).Wrong at bytes.now e) }
    {
        let [a, b, c, d, e, f, g, h] = read_octets::<8>(bytes, at)?;
        Ok(RuleUidRange {
            start: u32::from_le_bytes([a, b, c, d]),
            end: u32::from_le_bytes([e, f, g, h]),
        })
    }

    /// The 8 bytes of the layout.
    pub fn to_bytes(&self) -> [u8; 8]
        ensures { result ≡ uid_range.encode self.now }
    {
        let [a, b, c, d] = self.start.to_le_bytes();
        let [e, f, g, h] = self.end.to_le_bytes();
        [a, b, c, d, e, f, g, h]
    }
}

impl Emitable for RuleUidRange {
    ghost bytes = { uid_range.encode };

    fn check(&self) -> Result<usize, EmitError> {
        Ok(8)
    }

    fn emit(&self, out: &mut [u8]) {
        write_array(self.to_bytes(), out);
    }
}
