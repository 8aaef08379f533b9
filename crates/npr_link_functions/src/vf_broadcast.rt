//! The broadcast address of a virtual function: `struct ifla_vf_broadcast` of `linux/if_link.h`.

ghost use Rattle.std.specs.Prelude.{◌≡◌, IfOk, IfErr};
ghost use Rattle.{npr_base.specs.{Codec.{leading}, Refusal.{no_place}}, npr_link_functions.specs.VfBroadcast.{vf_broadcast}};

use npr_base::{DecodeError, EmitError, Emitable, leading_octets, write_array};

/// The broadcast address of a virtual function.
///
/// Layout (`struct ifla_vf_broadcast` of `linux/if_link.h`), 32 bytes: 32 bytes.
#[derive(Clone, Copy, Debug, Default, PartialEq, Eq)]
pub struct VfInfoBroadcast {
    /// The address on the link, and zeros behind it.
    pub addr: [u8; 32],
}

/// Its own layout.
pub type VfInfoBroadcastBuffer = VfInfoBroadcast;

impl VfInfoBroadcast {
    /// The values in the first 32 bytes; more are not looked at.
    ///
    /// # Errors
    /// `HeaderTooShort` below 32 bytes.
    pub fn parse(bytes: &[u8]) -> Result<Self, DecodeError>
        ensures ok { IfOk result (λ x. (leading vf_broadcast).Reads bytes.now x) }
        ensures refused { IfErr result (λ e. (leading vf_broadcast).Wrong no_place bytes.now e) }
    {
        let b = leading_octets(bytes, 32)?;
        Ok(VfInfoBroadcast {
            addr: [
                b[0], b[1], b[2], b[3], b[4], b[5], b[6], b[7], b[8], b[9], b[10], b[11], b[12],
                b[13], b[14], b[15], b[16], b[17], b[18], b[19], b[20], b[21], b[22], b[23], b[24],
                b[25], b[26], b[27], b[28], b[29], b[30], b[31],
            ],
        })
    }

    /// The 32 bytes of the layout.
    pub fn to_bytes(&self) -> [u8; 32]
        ensures { result ≡ vf_broadcast.encode self.now }
    {
        let [
            a0,
            a1,
            a2,
            a3,
            a4,
            a5,
            a6,
            a7,
            a8,
            a9,
            a10,
            a11,
            a12,
            a13,
            a14,
            a15,
            a16,
            a17,
            a18,
            a19,
            a20,
            a21,
            a22,
            a23,
            a24,
            a25,
            a26,
            a27,
            a28,
            a29,
            a30,
            a31,
        ] = self.addr;
        [
            a0, a1, a2, a3, a4, a5, a6, a7, a8, a9, a10, a11, a12, a13, a14, a15, a16, a17, a18,
            a19, a20, a21, a22, a23, a24, a25, a26, a27, a28, a29, a30, a31,
        ]
    }
}

impl Emitable for VfInfoBroadcast {
    ghost bytes = { vf_broadcast.encode };

    fn check(&self) -> Result<usize, EmitError> {
        Ok(32)
    }

    fn emit(&self, out: &mut [u8]) {
        write_array(self.to_bytes(), out);
    }
}
