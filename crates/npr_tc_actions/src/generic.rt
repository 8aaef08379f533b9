//! What every action has: `tc_gen` of `linux/pkt_cls.h`.

ghost use Rattle.std.specs.Prelude.{◌≡◌, ◌≤◌, length, IfOk, IfErr};
ghost use Rattle.{npr_base.specs.{Codec.{leading}, Refusal.{no_place}}, npr_tc_actions.specs.Generic.{generic}};

use crate::action_type::TcActionType;
use npr_base::{DecodeError, EmitError, Emitable, leading_octets, write_array};

/// What every action has: `tc_gen` of `linux/pkt_cls.h`, 20 bytes, five numbers of 4 bytes, little
/// endian.
#[derive(Clone, Copy, Debug, Default, PartialEq, Eq)]
pub struct TcActionGeneric {
    /// Its index among the actions of its kind.
    pub index: u32,
    /// What it can do; kernels do not look at it.
    pub capab: u32,
    /// What becomes of a packet behind it.
    pub action: TcActionType,
    /// How many hold it.
    pub refcnt: i32,
    /// How many filters hold it.
    pub bindcnt: i32,
}

/// A [`TcActionGeneric`] is its own layout.
pub type TcActionGenericBuffer = TcActionGeneric;

impl TcActionGeneric {
    /// The values in the first 20 bytes; more are not looked at.
    ///
    /// # Errors
    /// `HeaderTooShort` below 20 bytes.
    pub fn parse(bytes: &[u8]) -> Result<Self, DecodeError>
        ensures ok { IfOk result (λ x. (leading generic).Reads bytes.now x) }
        ensures refused { IfErr result (λ e. (leading generic).Wrong no_place bytes.now e) }
    {
        Ok(Self::in_front(leading_octets(bytes, 20)?))
    }

    /// The values in the first 20 bytes, which are there.
    pub(crate) fn in_front(b: &[u8]) -> Self
        requires { generic.size ≤ length b.now }
        ensures { result ≡ generic.decode b.now }
    {
        TcActionGeneric {
            index: u32::from_le_bytes([b[0], b[1], b[2], b[3]]),
            capab: u32::from_le_bytes([b[4], b[5], b[6], b[7]]),
            action: TcActionType::from(i32::from_le_bytes([b[8], b[9], b[10], b[11]])),
            refcnt: i32::from_le_bytes([b[12], b[13], b[14], b[15]]),
            bindcnt: i32::from_le_bytes([b[16], b[17], b[18], b[19]]),
        }
    }

    /// The 20 bytes of the layout.
    pub fn to_bytes(&self) -> [u8; 20]
        ensures { result ≡ generic.encode self.now }
    {
        let [a0, a1, a2, a3] = self.index.to_le_bytes();
        let [b0, b1, b2, b3] = self.capab.to_le_bytes();
        let [c0, c1, c2, c3] = i32::from(self.action).to_le_bytes();
        let [d0, d1, d2, d3] = self.refcnt.to_le_bytes();
        let [e0, e1, e2, e3] = self.bindcnt.to_le_bytes();
        [
            a0, a1, a2, a3, b0, b1, b2, b3, c0, c1, c2, c3, d0, d1, d2, d3, e0, e1, e2, e3,
        ]
    }
}

impl Emitable for TcActionGeneric {
    ghost bytes = { generic.encode };

    fn check(&self) -> Result<usize, EmitError> {
        Ok(20)
    }

    fn emit(&self, out: &mut [u8]) {
        write_array(self.to_bytes(), out);
    }
}
