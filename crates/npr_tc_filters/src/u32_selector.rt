//! What a u32 filter looks for: `struct tc_u32_sel` of `linux/pkt_cls.h`.

ghost use Rattle.std.specs.Prelude.{◌≡◌, ◌≢◌, ◌≤◌, ◌<◌, [], length, IfOk, IfErr, IsErrOf, OnErr};
ghost use Rattle.{
  npr_base.specs.{declared.refusal.DecodeError.TheVariants.{OutOfMemory}, Framing.{Writes}, Refusal.{no_place}},
  npr_tc_filters.specs.{U32Selector.{u32_front, u32_selector, u32_parts}, U32SelectorFlags.{u32_selector_flag_bits}},
};

use crate::u32_key::TcU32Key;
use crate::u32_selector_flags::TcU32SelectorFlags;
use bitflags::Flags;
use npr_base::{
    DecodeError, EmitError, Emitable, blocks_len, leading_octets, read_blocks, write_array,
    write_blocks,
};
use std::alloc::{AllocError, Global};

/// The length of `struct tc_u32_sel` of `linux/pkt_cls.h`, in bytes.
const TC_U32_SEL_SIZE: usize = 16;

/// What a u32 filter looks for, and where the next one begins.
///
/// Layout (`struct tc_u32_sel` of `linux/pkt_cls.h`), 16 bytes: three numbers of 1, one that is not
/// looked at, and written 0, `offmask` in 2, big endian, `off`, `offoff` and `hoff` in 2 each, little
/// endian, and `hmask` in 4, big endian. Behind it stand the keys, of 16 bytes each.
#[derive(Debug, Drop, PartialEq, Eq)]
pub struct TcU32Selector {
    /// What is done where it matches.
    pub flags: TcU32SelectorFlags,
    /// By how many bits a place that stands in the packet is shifted to the right.
    pub offshift: u8,
    /// How many keys a kernel looks at. It is not compared with `keys`, and written as it stands.
    pub nkeys: u8,
    /// Which bits of the packet are such a place.
    pub offmask: u16,
    /// How many bytes the next filter begins behind.
    pub off: u16,
    /// Where in the packet such a place stands, in bytes.
    pub offoff: u16,
    /// Where in the packet the bytes stand by which the next table is entered.
    pub hoff: u16,
    /// Which of their bits.
    pub hmask: u32,
    /// All of them have to match.
    pub keys: Vec<TcU32Key>,
}

/// A [`TcU32Selector`] is its own layout.
pub type TcU32SelectorBuffer = TcU32Selector;

impl TcU32Selector {
    /// A selector with each number 0 and no keys. It takes no memory.
    pub fn new(alloc: Global) -> Self
        ensures { u32_parts result ≡ ((u32_selector_flag_bits.of 0, (0, (0, (0, (0, (0, (0, 0))))))), []) }
    {
        TcU32Selector {
            flags: TcU32SelectorFlags::default(),
            offshift: 0,
            nkeys: 0,
            offmask: 0,
            off: 0,
            offoff: 0,
            hoff: 0,
            hmask: 0,
            keys: Vec::new(alloc),
        }
    }

    /// The selector that the bytes are; what is left behind the keys and too short for one is dropped.
    ///
    /// # Errors
    /// `HeaderTooShort` below 16 bytes, and `OutOfMemory` where memory is refused, which is taken for
    /// keys alone.
    pub fn parse(alloc: Global, bytes: &[u8]) -> Result<Self, DecodeError>
        ensures ok { IfOk result (λ x. u32_selector.Reads bytes.now (u32_parts x)) }
        ensures refused { IfErr result (λ e. e ≢ OutOfMemory → u32_selector.Wrong no_place bytes.now e) }
        ensures memory { IsErrOf result OutOfMemory → 32 ≤ length bytes.now }
    {
        let b = leading_octets(bytes, TC_U32_SEL_SIZE)?;
        Ok(TcU32Selector {
            flags: TcU32SelectorFlags::from_bits_retain(b[0]),
            offshift: b[1],
            nkeys: b[2],
            offmask: u16::from_be_bytes([b[4], b[5]]),
            off: u16::from_le_bytes([b[6], b[7]]),
            offoff: u16::from_le_bytes([b[8], b[9]]),
            hoff: u16::from_le_bytes([b[10], b[11]]),
            hmask: u32::from_be_bytes([b[12], b[13], b[14], b[15]]),
            keys: read_blocks(alloc, &bytes[TC_U32_SEL_SIZE..])?,
        })
    }

    /// An equal selector.
    ///
    /// # Errors
    /// `AllocError` where memory is refused.
    pub fn try_clone(&self, alloc: Global) -> Result<Self, AllocError>
        ensures { IfOk result (λ x. u32_parts x ≡ u32_parts self.now) }
    {
        Ok(TcU32Selector {
            keys: Vec::from_slice(alloc, self.keys.as_slice())?,
            ..*self
        })
    }

    /// The bytes in front of the keys.
    fn front_bytes(&self) -> [u8; 16]
        ensures { result ≡ u32_front.encode (u32_parts self.now).0 }
    {
        let [c0, c1] = self.offmask.to_be_bytes();
        let [d0, d1] = self.off.to_le_bytes();
        let [e0, e1] = self.offoff.to_le_bytes();
        let [f0, f1] = self.hoff.to_le_bytes();
        let [g0, g1, g2, g3] = self.hmask.to_be_bytes();
        let (a, b) = (self.flags.bits(), self.offshift);
        [
            a, b, self.nkeys, 0, c0, c1, d0, d1, e0, e1, f0, f1, g0, g1, g2, g3,
        ]
    }

    /// The length of the bytes.
    pub fn len(&self) -> usize
        ensures { result ≡ length (u32_selector.encode (u32_parts self.now)) }
    {
        TC_U32_SEL_SIZE + blocks_len(self.keys.as_slice())
    }

    /// Writes the bytes at the front of the slice, leaves the rest, and answers their length. Asks for
    /// room of that length.
    ///
    /// # Panics
    /// May panic where it is not as asked.
    pub fn write(&self, out: &mut [u8]) -> usize
        requires { length (u32_selector.encode (u32_parts self.now)) ≤ length out.old }
        ensures len { result ≡ length (u32_selector.encode (u32_parts self.now)) }
        ensures after { Writes out.old out.new (u32_selector.encode (u32_parts self.now)) }
    {
        let at = write_array(self.front_bytes(), out);
        at + write_blocks(self.keys.as_slice(), &mut out[at..])
    }
}

impl Emitable for TcU32Selector {
    ghost bytes = { λ x. u32_selector.encode (u32_parts x) };

    fn check(&self) -> Result<usize, EmitError> {
        Ok(self.len())
    }

    fn emit(&self, out: &mut [u8]) {
        self.write(out);
    }
}
