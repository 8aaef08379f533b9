//! When an action was made and used: `struct tcf_t` of `linux/pkt_cls.h`.

ghost use Rattle.std.specs.Prelude.{◌≡◌, IfOk, IfErr};
ghost use Rattle.{npr_base.specs.{Codec.{leading}, Refusal.{no_place}}, npr_tc_actions.specs.Tcf.{tcf}};

use npr_base::{DecodeError, EmitError, Emitable, leading_octets, octets_at, write_array};

/// When an action was made and used, in hundredths of a second: `struct tcf_t` of `linux/pkt_cls.h`,
/// 32 bytes, four numbers of 8 bytes, little endian.
#[derive(Clone, Copy, Debug, Default, PartialEq, Eq)]
pub struct Tcf {
    /// How long ago it was made.
    pub install: u64,
    /// How long ago it was last used.
    pub lastuse: u64,
    /// When it ends.
    pub expires: u64,
    /// How long ago it was first used.
    pub firstuse: u64,
}

/// A [`Tcf`] is its own layout.
pub type TcfBuffer = Tcf;

impl Tcf {
    /// The values in the first 32 bytes; more are not looked at.
    ///
    /// # Errors
    /// `HeaderTooShort` below 32 bytes.
    pub fn parse(bytes: &[u8]) -> Result<Self, DecodeError>
        ensures ok { IfOk result (λ x. (leading tcf).Reads bytes.now x) }
        ensures refused { IfErr result (λ e. (leading tcf).Wrong no_place bytes.now e) }
    {
        let b = leading_octets(bytes, 32)?;
        Ok(Tcf {
            install: u64::from_le_bytes(octets_at(b, 0)),
            lastuse: u64::from_le_bytes(octets_at(b, 8)),
            expires: u64::from_le_bytes(octets_at(b, 16)),
            firstuse: u64::from_le_bytes(octets_at(b, 24)),
        })
    }

    /// The 32 bytes of the layout.
    pub fn to_bytes(&self) -> [u8; 32]
        ensures { result ≡ tcf.encode self.now }
    {
        let mut out = [0; 32];
        write_array(self.install.to_le_bytes(), &mut out);
        write_array(self.lastuse.to_le_bytes(), &mut out[8..]);
        write_array(self.expires.to_le_bytes(), &mut out[16..]);
        write_array(self.firstuse.to_le_bytes(), &mut out[24..]);
        out
    }
}

impl Emitable for Tcf {
    ghost bytes = { tcf.encode };

    fn check(&self) -> Result<usize, EmitError> {
        Ok(32)
    }

    fn emit(&self, out: &mut [u8]) {
        write_array(self.to_bytes(), out);
    }
}
