//! How much a queue holds: `struct tc_fifo_qopt` of `linux/pkt_sched.h`.

ghost use Rattle.std.specs.Prelude.{◌≡◌, IfOk, IfErr};
ghost use Rattle.{npr_base.specs.{Codec.{leading}, Refusal.{no_place}}, npr_tc_qdiscs.specs.FifoQopt.{fifo_qopt}};

use npr_base::{DecodeError, EmitError, Emitable, leading_octets, octets_at, write_array};

/// How much a queue holds.
///
/// Layout (`struct tc_fifo_qopt` of `linux/pkt_sched.h`), 4 bytes: a number of 4, little endian.
#[derive(Clone, Copy, Debug, Default, PartialEq, Eq)]
pub struct TcFifoQopt {
    /// How many packets may wait; of `bfifo`, how many bytes.
    pub limit: u32,
}

impl TcFifoQopt {
    /// The values in the first 4 bytes; more are not looked at.
    ///
    /// # Errors
    /// `HeaderTooShort` below 4 bytes.
    pub fn parse(bytes: &[u8]) -> Result<Self, DecodeError>
        ensures ok { IfOk result (λ x. (leading fifo_qopt).Reads bytes.now x) }
        ensures refused { IfErr result (λ e. (leading fifo_qopt).Wrong no_place bytes.now e) }
    {
        let b = leading_octets(bytes, 4)?;
        Ok(TcFifoQopt {
            limit: u32::from_le_bytes(octets_at(b, 0)),
        })
    }

    /// The 4 bytes of the layout.
    pub fn to_bytes(&self) -> [u8; 4]
        ensures { result ≡ fifo_qopt.encode self.now }
    {
        let [a0, a1, a2, a3] = self.limit.to_le_bytes();
        [a0, a1, a2, a3]
    }
}

impl Emitable for TcFifoQopt {
    ghost bytes = { fifo_qopt.encode };

    fn check(&self) -> Result<usize, EmitError> {
        Ok(4)
    }

    fn emit(&self, out: &mut [u8]) {
        write_array(self.to_bytes(), out);
    }
}
