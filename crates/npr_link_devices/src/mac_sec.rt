//! The data of a link of MACsec: `IFLA_MACSEC_*` of `linux/if_link.h`.

ghost use Rattle.std.specs.Prelude.{refl};
ghost use Rattle.{npr_base.specs.Family.{shaped}, npr_link_devices.specs.MacSec.{family}};

use crate::mac_sec_cipher::MacSecCipherId;
use crate::mac_sec_offload::MacSecOffload;
use crate::mac_sec_validate::MacSecValidate;
use npr_base::{
    At, Attribute, DecodeError, DefaultNla, EmitError, Form, Looks, Nla, NlaBuffer, Place,
};
use std::alloc::{AllocError, Global};

/// The data of a link of MACsec.
#[derive(Debug, Drop, PartialEq, Eq)]
pub enum InfoMacSec {
    /// `IFLA_MACSEC_SCI`: the identifier of its secure channel, highest byte first.
    Sci(u64),
    /// `IFLA_MACSEC_PORT`: its port, highest byte first.
    Port(u16),
    /// `IFLA_MACSEC_ICV_LEN`: the length of the check value, in bytes.
    IcvLen(u8),
    /// `IFLA_MACSEC_CIPHER_SUITE`: the cipher suite.
    CipherSuite(MacSecCipherId),
    /// `IFLA_MACSEC_WINDOW`: how late a frame may be, in frames.
    Window(u32),
    /// `IFLA_MACSEC_ENCODING_SA`: the number of the association that is sent by.
    EncodingSa(u8),
    /// `IFLA_MACSEC_ENCRYPT`: whether frames are encrypted.
    Encrypt(u8),
    /// `IFLA_MACSEC_PROTECT`: whether frames are protected.
    Protect(u8),
    /// `IFLA_MACSEC_INC_SCI`: whether frames always hold the identifier of the channel.
    IncSci(u8),
    /// `IFLA_MACSEC_ES`: whether frames say that the sender is an end station.
    Es(u8),
    /// `IFLA_MACSEC_SCB`: whether frames say that they are for several stations.
    Scb(u8),
    /// `IFLA_MACSEC_REPLAY_PROTECT`: whether late frames are dropped.
    ReplayProtect(u8),
    /// `IFLA_MACSEC_VALIDATION`: what becomes of frames that are not valid.
    Validation(MacSecValidate),
    /// `IFLA_MACSEC_OFFLOAD`: what part of a device does it.
    Offload(MacSecOffload),
    /// An attribute of another number, as it stands.
    Other(DefaultNla),
}

/// The rows of the table.
macro_rules! rows {
    ($body:ident ($($given:tt)*)) => {
        npr_base::$body!(($($given)*) InfoMacSec of InfoMacSec {
            1 Sci(be64);
            2 Port(be16);
            3 IcvLen(byte);
            4 CipherSuite(MacSecCipherId as le64);
            5 Window(le32);
            6 EncodingSa(byte);
            7 Encrypt(byte);
            8 Protect(byte);
            9 IncSci(byte);
            10 Es(byte);
            11 Scb(byte);
            12 ReplayProtect(byte);
            13 Validation(MacSecValidate as byte);
            15 Offload(MacSecOffload as byte);
        })
    };
}

impl Nla for InfoMacSec {
    ghost shape = { shaped family };

    fn kind(&self) -> u16 {
        rows!(kind_rows(self))
    }

    fn is_nested(&self) -> bool {
        false
    }

    fn check_value(&self) -> Result<usize, EmitError> {
        Ok(rows!(len_rows(self)))
    }

    fn write_value(&self, out: &mut [u8]) -> usize {
        rows!(write_rows(self, out))
    }
}

impl Attribute for InfoMacSec {
    type Context = ();

    ghost family = { family };

    ghost shape_is = { λ a. refl };

    #[tactic(auto, unfolding(crate::specs::MacSec::attributes))]
    fn read_into<P: Place<Self>>(
        place: &mut P,
        alloc: Global,
        _context: (),
        item: &NlaBuffer<'_>,
        looks: &mut Looks,
    ) -> Result<(), DecodeError> {
        rows!(put_rows(place, alloc, item, looks))
    }

    #[tactic(auto, unfolding(crate::specs::MacSec::attributes))]
    fn form(_context: (), number: u16) -> (At, Form) {
        rows!(form_rows(number))
    }

    fn try_clone(&self, alloc: Global) -> Result<Self, AllocError> {
        rows!(clone_rows(self, alloc))
    }
}
