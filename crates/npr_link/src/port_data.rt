//! The data of a port: `IFLA_INFO_SLAVE_DATA` of `linux/if_link.h`.

ghost use Rattle.std.specs.Prelude.{◌≡◌, ◌≢◌, ◌≤◌, ◌<◌, None, length, IfOk, IfErr, IsErrOf, OnErr};
ghost use Rattle.{
  npr_base.specs.{
    declared.refusal.DecodeError.TheVariants.{OutOfMemory},
    Counts.{AddsAtMost},
    Framing.{Writes},
    Lists.{checked},
    Looks.{Answered, TakesInside},
    Refusal.{no_place},
  },
  npr_link.specs.PortData.{case, held, port_data, port_data_of},
};

use crate::port_kind::InfoPortForm;
use crate::vrf::InfoVrf;
use npr_base::{
    AttributeSet, DecodeError, EmitError, Form, Looks, parse_list, read_bytes, write_bytes,
};
use npr_link_bridge::InfoBridgePort;
use npr_link_devices::InfoBondPort;
use std::alloc::{AllocError, Global};

/// The data of a port: what they are follows from the first kind in the list that they stand in.
#[derive(Debug, Drop, PartialEq, Eq)]
pub enum InfoPortData {
    /// A port of a bridge.
    BridgePort(Vec<InfoBridgePort>),
    /// A port of a routing domain.
    VrfPort(Vec<InfoVrf>),
    /// A port of a bond.
    BondPort(Vec<InfoBondPort>),
    /// The bytes of data that nothing governs, or a kind without a family.
    Other(Vec<u8>),
}

/// The variants that hold attributes.
macro_rules! variants {
    ($body:ident ($($given:tt)*)) => {
        npr_base::$body!(($($given)*) InfoPortData {
            BridgePort(list InfoBridgePort);
            VrfPort(list InfoVrf);
            BondPort(list InfoBondPort);
        })
    };
}

impl InfoPortData {
    /// The data of these bytes. Each look at a header is counted.
    ///
    /// # Errors
    /// `OutOfMemory` where memory is refused, and else the first fault in reading order.
    pub(crate) fn read(
        alloc: Global,
        form: InfoPortForm,
        bytes: &[u8],
        looks: &mut Looks,
    ) -> Result<Self, DecodeError>
        ensures ok { IfOk result (λ x. (port_data form).Reads bytes.now (port_data_of x)) }
        ensures refused { IfErr result (λ e. e ≢ OutOfMemory → (port_data form).Wrong no_place bytes.now e) }
        ensures exact { Answered result → TakesInside (port_data form).members.looks bytes.now looks.old looks.new }
        // Memory is taken for a first whole attribute, and for bytes that are kept.
        ensures memory { IsErrOf result OutOfMemory → (case form).memory bytes.now }
        ensures bounded { AddsAtMost looks.old looks.new (length bytes.now) }
    {
        match form {
            InfoPortForm::Bridge => Ok(InfoPortData::BridgePort(parse_list(
                alloc,
                (),
                bytes,
                looks,
            )?)),
            InfoPortForm::Vrf => Ok(InfoPortData::VrfPort(parse_list(alloc, (), bytes, looks)?)),
            InfoPortForm::Bond => Ok(InfoPortData::BondPort(parse_list(alloc, (), bytes, looks)?)),
            InfoPortForm::Kept => Ok(InfoPortData::Other(read_bytes(alloc, bytes)?)),
        }
    }

    /// How the data are read without memory.
    pub(crate) fn form(form: InfoPortForm) -> Form
        ensures { result ≡ (port_data form).showing.form }
    {
        match form {
            InfoPortForm::Bridge => Form::List(AttributeSet::InfoBridgePort, 0),
            InfoPortForm::Vrf => Form::List(AttributeSet::InfoVrf, 0),
            InfoPortForm::Bond => Form::List(AttributeSet::InfoBondPort, 0),
            InfoPortForm::Kept => Form::Raw,
        }
    }

    /// An equal value.
    ///
    /// # Errors
    /// `AllocError` where memory is refused; where nothing stands in it none is taken.
    pub fn try_clone(&self, alloc: Global) -> Result<Self, AllocError>
        ensures ok { IfOk result (λ x. port_data_of x ≡ port_data_of self.now) }
        ensures memory { OnErr result (0 < (held (port_data_of self.now)).size) }
    {
        variants!(data_cloned(self, alloc;
            InfoPortData::Other(bytes) => read_bytes(alloc, bytes.as_slice()).map(InfoPortData::Other),
        ))
    }

    /// The length of the bytes, or the first cause inside why there are none.
    pub(crate) fn check(&self) -> Result<usize, EmitError>
        ensures { result ≡ checked (held (port_data_of self.now)).unfit (length (held (port_data_of self.now)).encoded) }
    {
        variants!(data_checked(self; InfoPortData::Other(bytes) => Ok(bytes.len()),))
    }

    /// Writes the bytes at the front of the slice, leaves the rest, and answers their length.
    pub(crate) fn write(&self, out: &mut [u8]) -> usize
        requires fits { (held (port_data_of self.now)).unfit ≡ None }
        requires room { length (held (port_data_of self.now)).encoded ≤ length out.old }
        ensures len { result ≡ length (held (port_data_of self.now)).encoded }
        ensures after { Writes out.old out.new (held (port_data_of self.now)).encoded }
    {
        variants!(data_written(self, out;
            InfoPortData::Other(bytes) => write_bytes(bytes.as_slice(), out),
        ))
    }
}
