//! The queues of `mqprio`: `struct tc_mqprio_qopt` of `linux/pkt_sched.h`.

ghost use Rattle.std.specs.Prelude.{◌≡◌, ◌≤◌, ◌∷◌, ◌++◌, [], length, IfOk, IfErr};
ghost use Rattle.{
  npr_base.specs.{Codec.{leading}, Framing.{Writes}, MoreFields.{bytes_at}, Refusal.{no_place}},
  npr_tc_qdiscs.specs.{MqprioQopt.{mqprio_qopt}, WordsField.{words_at, words_field}},
};

use npr_base::{DecodeError, EmitError, Emitable, leading_octets, write_array, write_blocks};

/// The queues of `mqprio`.
///
/// Layout (`struct tc_mqprio_qopt` of `linux/pkt_sched.h`), 82 bytes: a byte, 16 bytes, a byte, and twice 16
/// numbers of 2, little endian.
#[derive(Clone, Copy, Debug, Default, PartialEq, Eq)]
pub struct TcMqprioQopt {
    /// How many classes of traffic there are.
    pub num_tc: u8,
    /// The class of each of 16 priorities.
    pub prio_tc_map: [u8; 16],
    /// Whether the device gives packets their queues: 1, or the kernel: 0.
    pub hw: u8,
    /// How many queues each class has.
    pub count: [u16; 16],
    /// The first of them.
    pub offset: [u16; 16],
}

/// Sixteen numbers of 2 bytes, the lowest byte first. Asks that they are there.
///
/// # Panics
/// May panic where it is not as asked.
fn words(b: &[u8]) -> [u16; 16]
    requires { 32 ≤ length b.now }
    ensures { result ≡ words_at 16 b.now 0 }
{
    [
        u16::from_le_bytes([b[0], b[1]]),
        u16::from_le_bytes([b[2], b[3]]),
        u16::from_le_bytes([b[4], b[5]]),
        u16::from_le_bytes([b[6], b[7]]),
        u16::from_le_bytes([b[8], b[9]]),
        u16::from_le_bytes([b[10], b[11]]),
        u16::from_le_bytes([b[12], b[13]]),
        u16::from_le_bytes([b[14], b[15]]),
        u16::from_le_bytes([b[16], b[17]]),
        u16::from_le_bytes([b[18], b[19]]),
        u16::from_le_bytes([b[20], b[21]]),
        u16::from_le_bytes([b[22], b[23]]),
        u16::from_le_bytes([b[24], b[25]]),
        u16::from_le_bytes([b[26], b[27]]),
        u16::from_le_bytes([b[28], b[29]]),
        u16::from_le_bytes([b[30], b[31]]),
    ]
}

impl TcMqprioQopt {
    /// The values in the first 82 bytes; more are not looked at.
    ///
    /// # Errors
    /// `HeaderTooShort` below 82 bytes.
    pub fn parse(bytes: &[u8]) -> Result<Self, DecodeError>
        ensures ok { IfOk result (λ x. (leading mqprio_qopt).Reads bytes.now x) }
        ensures refused { IfErr result (λ e. (leading mqprio_qopt).Wrong no_place bytes.now e) }
    {
        let b = leading_octets(bytes, 82)?;
        Ok(TcMqprioQopt {
            num_tc: b[0],
            prio_tc_map: [
                b[1], b[2], b[3], b[4], b[5], b[6], b[7], b[8], b[9], b[10], b[11], b[12], b[13],
                b[14], b[15], b[16],
            ],
            hw: b[17],
            count: words(&b[18..]),
            offset: words(&b[50..]),
        })
    }

    /// The bytes in front of the numbers.
    fn front(&self) -> [u8; 18]
        ensures { result ≡ self.now.num_tc ∷ (bytes_at 16 self.now.prio_tc_map 0 ++ (self.now.hw ∷ [])) }
    {
        let (first, m, last) = (self.num_tc, &self.prio_tc_map, self.hw);
        [
            first, m[0], m[1], m[2], m[3], m[4], m[5], m[6], m[7], m[8], m[9], m[10], m[11], m[12],
            m[13], m[14], m[15], last,
        ]
    }

    /// Writes the numbers at the front of the slice, and leaves the rest. Asks for room of them.
    ///
    /// # Panics
    /// May panic where it is not as asked.
    fn write_numbers(&self, out: &mut [u8])
        requires { 64 ≤ length out.old }
        ensures { Writes out.old out.new ((words_field 16).encode self.now.count ++ (words_field 16).encode self.now.offset) }
    {
        write_blocks(self.offset.as_slice(), &mut out[32..]);
        write_blocks(self.count.as_slice(), out);
    }
}

impl Emitable for TcMqprioQopt {
    ghost bytes = { mqprio_qopt.encode };

    fn check(&self) -> Result<usize, EmitError> {
        Ok(82)
    }

    fn emit(&self, out: &mut [u8]) {
        self.write_numbers(&mut out[18..]);
        write_array(self.front(), out);
    }
}
