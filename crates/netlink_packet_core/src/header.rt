//! The header of an envelope: `struct nlmsghdr` of `linux/netlink.h`.

ghost use Rattle.std.specs.Prelude.{◌≡◌, ◌≤◌, length, IfOk, IfErr};
ghost use Rattle.{npr_base.specs.{Codec.{leading}, Refusal.{no_place}}, netlink_packet_core.specs.Header.{header}};

use crate::constants::NETLINK_HEADER_LEN;
use npr_base::{DecodeError, EmitError, Emitable, leading_octets, write_array};

/// The header of an envelope.
///
/// Layout (`linux/netlink.h`, `struct nlmsghdr`), 16 bytes, little endian: the length in 4 bytes,
/// the type in 2, the flags in 2, the sequence number in 4 and the port in 4.
#[derive(Clone, Copy, Debug, Default, PartialEq, Eq)]
pub struct NetlinkHeader {
    /// The length of header and payload, in bytes.
    pub length: u32,
    /// What the payload is: `NLMSG_*`, or a number of the protocol.
    pub message_type: u16,
    /// The flags: `NLM_F_*`.
    pub flags: u16,
    /// The number of the request to which the message belongs.
    pub sequence_number: u32,
    /// The port of the socket that asked, or 0.
    pub port_number: u32,
}

impl NetlinkHeader {
    /// The header in the first 16 bytes; more are not looked at.
    ///
    /// # Errors
    /// `HeaderTooShort` below 16 bytes.
    pub fn parse(bytes: &[u8]) -> Result<Self, DecodeError>
        ensures ok { IfOk result (λ h. (leading header).Reads bytes.now h) }
        ensures refused { IfErr result (λ e. (leading header).Wrong no_place bytes.now e) }
    {
        Ok(NetlinkHeader::in_front(leading_octets(bytes, NETLINK_HEADER_LEN)?))
    }

    /// The header in the first 16 bytes, which are there.
    pub(crate) fn in_front(bytes: &[u8]) -> Self
        requires { 16 ≤ length bytes.now }
        ensures { (leading header).Reads bytes.now result }
    {
        let b = &bytes[..16];
        NetlinkHeader {
            length: u32::from_le_bytes([b[0], b[1], b[2], b[3]]),
            message_type: u16::from_le_bytes([b[4], b[5]]),
            flags: u16::from_le_bytes([b[6], b[7]]),
            sequence_number: u32::from_le_bytes([b[8], b[9], b[10], b[11]]),
            port_number: u32::from_le_bytes([b[12], b[13], b[14], b[15]]),
        }
    }

    /// The 16 bytes of the header.
    pub fn to_bytes(&self) -> [u8; 16]
        ensures { result ≡ header.encode self.now }
    {
        let [a0, a1, a2, a3] = self.length.to_le_bytes();
        let [b0, b1] = self.message_type.to_le_bytes();
        let [c0, c1] = self.flags.to_le_bytes();
        let [d0, d1, d2, d3] = self.sequence_number.to_le_bytes();
        let [e0, e1, e2, e3] = self.port_number.to_le_bytes();
        [
            a0, a1, a2, a3, b0, b1, c0, c1, d0, d1, d2, d3, e0, e1, e2, e3,
        ]
    }
}

impl Emitable for NetlinkHeader {
    ghost bytes = { header.encode };

    fn check(&self) -> Result<usize, EmitError> {
        Ok(NETLINK_HEADER_LEN)
    }

    fn emit(&self, out: &mut [u8]) {
        write_array(self.to_bytes(), out);
    }
}
