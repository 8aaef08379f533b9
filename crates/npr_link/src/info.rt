//! What a driver says of a link: `IFLA_INFO_*` of `linux/if_link.h`.

ghost use Rattle.std.specs.Prelude.{refl};
ghost use Rattle.{npr_base.specs.Family.{shaped}, npr_link.specs.Info.{family}};

use crate::info_data::InfoData;
use crate::info_kind::InfoKind;
use crate::port_data::InfoPortData;
use crate::port_kind::{InfoPortForm, InfoPortKind};
use npr_base::{
    At, Attribute, AttributeSet, DecodeError, DefaultNla, EmitError, Form, Looks, Nla, NlaBuffer,
    Place, put_read, read_bytes, write_bytes,
};
use npr_link_tunnels::InfoForm;
use std::alloc::{AllocError, Global};

/// What a driver says of a link. Data are read by the first kind of their list, wherever it stands.
#[derive(Debug, Drop, PartialEq, Eq)]
pub enum LinkInfo {
    /// `IFLA_INFO_KIND`: the kind.
    Kind(InfoKind),
    /// `IFLA_INFO_DATA`: the data of the link.
    Data(InfoData),
    /// `IFLA_INFO_XSTATS`: counters of the driver, as they stand.
    Xstats(Vec<u8>),
    /// `IFLA_INFO_SLAVE_KIND`: the kind of the link that controls it.
    PortKind(InfoPortKind),
    /// `IFLA_INFO_SLAVE_DATA`: its data as a port of that link.
    PortData(InfoPortData),
    /// An attribute of another number, as it stands.
    Other(DefaultNla),
}

/// The number of the kind, `IFLA_INFO_KIND`.
pub(crate) const IFLA_INFO_KIND: u16 = 1;

/// The number of the data, `IFLA_INFO_DATA`.
const IFLA_INFO_DATA: u16 = 2;

/// The number of the counters, `IFLA_INFO_XSTATS`.
const IFLA_INFO_XSTATS: u16 = 3;

/// The number of the controller's kind, `IFLA_INFO_SLAVE_KIND`.
pub(crate) const IFLA_INFO_SLAVE_KIND: u16 = 4;

/// The number of the data of a port, `IFLA_INFO_SLAVE_DATA`.
const IFLA_INFO_SLAVE_DATA: u16 = 5;

impl Nla for LinkInfo {
    ghost shape = { shaped family };

    fn kind(&self) -> u16 {
        match self {
            LinkInfo::Kind(_) => IFLA_INFO_KIND,
            LinkInfo::Data(_) => IFLA_INFO_DATA,
            LinkInfo::Xstats(_) => IFLA_INFO_XSTATS,
            LinkInfo::PortKind(_) => IFLA_INFO_SLAVE_KIND,
            LinkInfo::PortData(_) => IFLA_INFO_SLAVE_DATA,
            LinkInfo::Other(nla) => nla.kind(),
        }
    }

    fn is_nested(&self) -> bool {
        false
    }

    fn check_value(&self) -> Result<usize, EmitError> {
        match self {
            LinkInfo::Kind(kind) => Ok(kind.len()),
            LinkInfo::Data(data) => data.check(),
            LinkInfo::Xstats(bytes) => Ok(bytes.len()),
            LinkInfo::PortKind(kind) => Ok(kind.len()),
            LinkInfo::PortData(data) => data.check(),
            LinkInfo::Other(nla) => Ok(nla.value().len()),
        }
    }

    fn write_value(&self, out: &mut [u8]) -> usize {
        match self {
            LinkInfo::Kind(kind) => kind.write(out),
            LinkInfo::Data(data) => data.write(out),
            LinkInfo::Xstats(bytes) => write_bytes(bytes.as_slice(), out),
            LinkInfo::PortKind(kind) => kind.write(out),
            LinkInfo::PortData(data) => data.write(out),
            LinkInfo::Other(nla) => nla.write_value(out),
        }
    }
}

impl Attribute for LinkInfo {
    type Context = (InfoForm, InfoPortForm);

    ghost family = { family };

    ghost shape_is = { λ a. refl };

    fn read_into<P: Place<Self>>(
        place: &mut P,
        alloc: Global,
        forms: (InfoForm, InfoPortForm),
        item: &NlaBuffer<'_>,
        looks: &mut Looks,
    ) -> Result<(), DecodeError> {
        let value = item.value();
        match item.kind() {
            IFLA_INFO_KIND => put_read(
                place,
                InfoKind::read(alloc, value, AttributeSet::LinkInfo.at(IFLA_INFO_KIND)),
                LinkInfo::Kind,
            ),
            IFLA_INFO_DATA => put_read(
                place,
                InfoData::read(alloc, forms.0, value, looks),
                LinkInfo::Data,
            ),
            IFLA_INFO_XSTATS => {
                place.put(LinkInfo::Xstats(read_bytes(alloc, value)?));
                Ok(())
            }
            IFLA_INFO_SLAVE_KIND => put_read(
                place,
                InfoPortKind::read(
                    alloc,
                    value,
                    AttributeSet::LinkInfo.at(IFLA_INFO_SLAVE_KIND),
                ),
                LinkInfo::PortKind,
            ),
            IFLA_INFO_SLAVE_DATA => put_read(
                place,
                InfoPortData::read(alloc, forms.1, value, looks),
                LinkInfo::PortData,
            ),
            _ => put_read(place, DefaultNla::read(alloc, item), LinkInfo::Other),
        }
    }

    fn form(forms: (InfoForm, InfoPortForm), number: u16) -> (At, Form) {
        let form = match number {
            IFLA_INFO_KIND | IFLA_INFO_SLAVE_KIND => Form::Name,
            IFLA_INFO_DATA => InfoData::form(forms.0),
            IFLA_INFO_SLAVE_DATA => InfoPortData::form(forms.1),
            _ => Form::Raw,
        };
        (AttributeSet::LinkInfo.at(number), form)
    }

    fn try_clone(&self, alloc: Global) -> Result<Self, AllocError> {
        match self {
            LinkInfo::Kind(kind) => kind.try_clone(alloc).map(LinkInfo::Kind),
            LinkInfo::Data(data) => data.try_clone(alloc).map(LinkInfo::Data),
            LinkInfo::Xstats(bytes) => {
                Vec::from_slice(alloc, bytes.as_slice()).map(LinkInfo::Xstats)
            }
            LinkInfo::PortKind(kind) => kind.try_clone(alloc).map(LinkInfo::PortKind),
            LinkInfo::PortData(data) => data.try_clone(alloc).map(LinkInfo::PortData),
            LinkInfo::Other(nla) => nla.try_clone(alloc).map(LinkInfo::Other),
        }
    }
}
