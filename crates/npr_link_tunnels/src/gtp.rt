//! The data of a tunnel of GTP: `IFLA_GTP_*` of `linux/if_link.h`.

ghost use Rattle.std.specs.Prelude.{refl};
ghost use Rattle.{npr_base.specs.Family.{shaped}, npr_link_tunnels.specs.Gtp.{family}};

use npr_base::{
    At, Attribute, DecodeError, DefaultNla, EmitError, Form, Ipv4Addr, Ipv6Addr, Looks, Nla,
    NlaBuffer, Place,
};
use std::alloc::{AllocError, Global};

/// The data of a tunnel of GTP.
#[derive(Debug, Drop, PartialEq, Eq)]
pub enum InfoGtp {
    /// `IFLA_GTP_FD0`: a file descriptor of the socket of version 0.
    Fd0(u32),
    /// `IFLA_GTP_FD1`: one of that of version 1.
    Fd1(u32),
    /// `IFLA_GTP_PDP_HASHSIZE`: how many lists its contexts are spread over.
    PdpHashSize(u32),
    /// `IFLA_GTP_ROLE`: which end it is: `GTP_ROLE_*` of the same header.
    Role(u32),
    /// `IFLA_GTP_CREATE_SOCKETS`: whether the kernel makes the sockets. True for a byte above 0.
    CreateSockets(bool),
    /// `IFLA_GTP_RESTART_COUNT`: how often this end began anew.
    RestartCount(u8),
    /// `IFLA_GTP_LOCAL`: the address that the sockets are bound to, of version 4.
    Local(Ipv4Addr),
    /// `IFLA_GTP_LOCAL6`: that of version 6.
    Local6(Ipv6Addr),
    /// An attribute of another number, as it stands.
    Other(DefaultNla),
}

/// The rows of the table.
macro_rules! rows {
    ($body:ident ($($given:tt)*)) => {
        npr_base::$body!(($($given)*) InfoGtp of InfoGtp {
            1 Fd0(le32);
            2 Fd1(le32);
            3 PdpHashSize(le32);
            4 Role(le32);
            5 CreateSockets(boolean);
            6 RestartCount(byte);
            7 Local(octets4);
            8 Local6(octets16);
        })
    };
}

impl Nla for InfoGtp {
    ghost shape = { shaped family };

    fn kind(&self) -> u16 {
        rows!(kind_rows(self))
    }

    fn is_nested(&self) -> bool {
        false
    }

    fn check_value(&self) -> Result<usize, EmitError> {
        Ok(rows!(len_rows(self)))
    }

    fn write_value(&self, out: &mut [u8]) -> usize {
        rows!(write_rows(self, out))
    }
}

impl Attribute for InfoGtp {
    type Context = ();

    ghost family = { family };

    ghost shape_is = { λ a. refl };

    #[tactic(auto, unfolding(crate::specs::Gtp::attributes))]
    fn read_into<P: Place<Self>>(
        place: &mut P,
        alloc: Global,
        _context: (),
        item: &NlaBuffer<'_>,
        looks: &mut Looks,
    ) -> Result<(), DecodeError> {
        rows!(put_rows(place, alloc, item, looks))
    }

    #[tactic(auto, unfolding(crate::specs::Gtp::attributes))]
    fn form(_context: (), number: u16) -> (At, Form) {
        rows!(form_rows(number))
    }

    fn try_clone(&self, alloc: Global) -> Result<Self, AllocError> {
        rows!(clone_rows(self, alloc))
    }
}
