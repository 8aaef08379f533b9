//! What an action that edits packets changes: `struct tc_pedit_sel` of `linux/tc_act/tc_pedit.h`.

ghost use Rattle.std.specs.Prelude.{◌≡◌, ◌≢◌, ◌≤◌, [], length, IfOk, IfErr, IsErrOf};
ghost use Rattle.{
  npr_base.specs.{declared.refusal.DecodeError.TheVariants.{OutOfMemory}, Framing.{Writes}, Refusal.{no_place}},
  npr_tc_actions.specs.{Nat.{default_nat}, PeditSelector.{pedit_front, pedit_parts, pedit_selector}},
};

use crate::generic::TcActionGeneric;
use crate::pedit_key::TcPeditKey;
use npr_base::{
    DecodeError, EmitError, Emitable, blocks_len, leading_octets, read_blocks, write_array,
    write_blocks,
};
use std::alloc::{AllocError, Global};

/// The length of `struct tc_pedit_sel` of `linux/tc_act/tc_pedit.h`, in bytes.
const TC_PEDIT_SEL_SIZE: usize = 24;

/// What an action that edits packets changes.
///
/// Layout (`struct tc_pedit_sel` of `linux/tc_act/tc_pedit.h`), 24 bytes: what every action has, two
/// numbers of 1, and two bytes that are not looked at, and written 0. Behind it stand the keys, of 24
/// bytes each.
#[derive(Debug, Drop, PartialEq, Eq)]
pub struct TcPeditSelector {
    /// What every action has.
    pub generic: TcActionGeneric,
    /// How many keys a kernel looks at. It is not compared with `keys`, and written as it stands.
    pub nkeys: u8,
    /// What a kernel keeps, and answers as it was.
    pub flags: u8,
    /// All of them are carried out, in this order.
    pub keys: Vec<TcPeditKey>,
}

impl TcPeditSelector {
    /// A selector of the default action, with each number 0 and no keys. It takes no memory.
    pub fn new(alloc: Global) -> Self
        ensures { pedit_parts result ≡ ((default_nat.generic, (0, 0)), []) }
    {
        TcPeditSelector {
            generic: TcActionGeneric::default(),
            nkeys: 0,
            flags: 0,
            keys: Vec::new(alloc),
        }
    }

    /// The selector that the bytes are; what is left behind the keys and too short for one is dropped.
    ///
    /// # Errors
    /// `HeaderTooShort` below 24 bytes, and `OutOfMemory` where memory is refused, which is taken for
    /// keys alone.
    pub fn parse(alloc: Global, bytes: &[u8]) -> Result<Self, DecodeError>
        ensures ok { IfOk result (λ x. pedit_selector.Reads bytes.now (pedit_parts x)) }
        ensures refused { IfErr result (λ e. e ≢ OutOfMemory → pedit_selector.Wrong no_place bytes.now e) }
        ensures memory { IsErrOf result OutOfMemory → 48 ≤ length bytes.now }
    {
        let b = leading_octets(bytes, TC_PEDIT_SEL_SIZE)?;
        Ok(TcPeditSelector {
            generic: TcActionGeneric::in_front(b),
            nkeys: b[20],
            flags: b[21],
            keys: read_blocks(alloc, &bytes[TC_PEDIT_SEL_SIZE..])?,
        })
    }

    /// An equal selector.
    ///
    /// # Errors
    /// `AllocError` where memory is refused.
    pub fn try_clone(&self, alloc: Global) -> Result<Self, AllocError>
        ensures { IfOk result (λ x. pedit_parts x ≡ pedit_parts self.now) }
    {
        Ok(TcPeditSelector {
            keys: Vec::from_slice(alloc, self.keys.as_slice())?,
            ..*self
        })
    }

    /// The bytes in front of the keys.
    fn front_bytes(&self) -> [u8; 24]
        ensures { result ≡ pedit_front.encode (pedit_parts self.now).0 }
    {
        let [
            a0,
            a1,
            a2,
            a3,
            a4,
            a5,
            a6,
            a7,
            a8,
            a9,
            a10,
            a11,
            a12,
            a13,
            a14,
            a15,
            a16,
            a17,
            a18,
            a19,
        ] = self.generic.to_bytes();
        [
            a0, a1, a2, a3, a4, a5, a6, a7, a8, a9, a10, a11, a12, a13, a14, a15, a16, a17, a18,
            a19, self.nkeys, self.flags, 0, 0,
        ]
    }

    /// The length of the bytes.
    pub fn len(&self) -> usize
        ensures { result ≡ length (pedit_selector.encode (pedit_parts self.now)) }
    {
        TC_PEDIT_SEL_SIZE + blocks_len(self.keys.as_slice())
    }

    /// Writes the bytes at the front of the slice, leaves the rest, and answers their length. Asks for
    /// room of that length.
    ///
    /// # Panics
    /// May panic where it is not as asked.
    pub fn write(&self, out: &mut [u8]) -> usize
        requires { length (pedit_selector.encode (pedit_parts self.now)) ≤ length out.old }
        ensures len { result ≡ length (pedit_selector.encode (pedit_parts self.now)) }
        ensures after { Writes out.old out.new (pedit_selector.encode (pedit_parts self.now)) }
    {
        let at = write_array(self.front_bytes(), out);
        at + write_blocks(self.keys.as_slice(), &mut out[at..])
    }
}

impl Emitable for TcPeditSelector {
    ghost bytes = { λ x. pedit_selector.encode (pedit_parts x) };

    fn check(&self) -> Result<usize, EmitError> {
        Ok(self.len())
    }

    fn emit(&self, out: &mut [u8]) {
        self.write(out);
    }
}
