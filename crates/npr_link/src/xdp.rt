//! The program at the driver of a link: `IFLA_XDP_*` of `linux/if_link.h`.

ghost use Rattle.std.specs.Prelude.{refl};
ghost use Rattle.{npr_base.specs.Family.{shaped}, npr_link.specs.Xdp.{family}};

use crate::xdp_attached::XdpAttached;
use npr_base::{
    At, Attribute, DecodeError, DefaultNla, EmitError, Form, Looks, Nla, NlaBuffer, Place,
};
use std::alloc::{AllocError, Global};

/// The program at the driver of a link.
#[derive(Debug, Drop, PartialEq, Eq)]
pub enum LinkXdp {
    /// `IFLA_XDP_FD`: a file descriptor of the program; -1 takes it away.
    Fd(i32),
    /// `IFLA_XDP_ATTACHED`: where it is attached.
    Attached(XdpAttached),
    /// `IFLA_XDP_FLAGS`: how it is to be attached.
    Flags(u32),
    /// `IFLA_XDP_PROG_ID`: the id of the program.
    ProgId(u32),
    /// `IFLA_XDP_DRV_PROG_ID`: the id of that at the driver.
    DrvProgId(u32),
    /// `IFLA_XDP_SKB_PROG_ID`: the id of that behind the driver.
    SkbProgId(u32),
    /// `IFLA_XDP_HW_PROG_ID`: the id of that in the device.
    HwProgId(u32),
    /// `IFLA_XDP_EXPECTED_FD`: a file descriptor of the program that it is to replace.
    ExpectedFd(u32),
    /// An attribute of another number, as it stands.
    Other(DefaultNla),
}

/// The rows of the table.
macro_rules! rows {
    ($body:ident ($($given:tt)*)) => {
        npr_base::$body!(($($given)*) LinkXdp of LinkXdp {
            1 Fd(signed32);
            2 Attached(XdpAttached as byte);
            3 Flags(le32);
            4 ProgId(le32);
            5 DrvProgId(le32);
            6 SkbProgId(le32);
            7 HwProgId(le32);
            8 ExpectedFd(le32);
        })
    };
}

impl Nla for LinkXdp {
    ghost shape = { shaped family };

    fn kind(&self) -> u16 {
        rows!(kind_rows(self))
    }

    fn is_nested(&self) -> bool {
        false
    }

    fn check_value(&self) -> Result<usize, EmitError> {
        Ok(rows!(len_rows(self)))
    }

    fn write_value(&self, out: &mut [u8]) -> usize {
        rows!(write_rows(self, out))
    }
}

impl Attribute for LinkXdp {
    type Context = ();

    ghost family = { family };

    ghost shape_is = { λ a. refl };

    #[tactic(auto, unfolding(crate::specs::Xdp::attributes))]
    fn read_into<P: Place<Self>>(
        place: &mut P,
        alloc: Global,
        _context: (),
        item: &NlaBuffer<'_>,
        looks: &mut Looks,
    ) -> Result<(), DecodeError> {
        rows!(put_rows(place, alloc, item, looks))
    }

    #[tactic(auto, unfolding(crate::specs::Xdp::attributes))]
    fn form(_context: (), number: u16) -> (At, Form) {
        rows!(form_rows(number))
    }

    fn try_clone(&self, alloc: Global) -> Result<Self, AllocError> {
        rows!(clone_rows(self, alloc))
    }
}
