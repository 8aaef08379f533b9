//! The data of a link: `IFLA_INFO_DATA` of `linux/if_link.h`.

ghost use Rattle.std.specs.Prelude.{◌≡◌, ◌≢◌, ◌≤◌, ◌<◌, None, length, IfOk, IfErr, IsErrOf, OnErr};
ghost use Rattle.{
  npr_base.specs.{
    declared.refusal.DecodeError.TheVariants.{OutOfMemory},
    Counts.{AddsAtMost},
    Framing.{Writes},
    Lists.{checked},
    Looks.{Answered, TakesInside},
    Refusal.{no_place},
  },
  npr_link.specs.InfoData.{case, held, info_data, info_data_of},
};

use crate::netkit::InfoNetkit;
use crate::veth::InfoVeth;
use crate::vlan::InfoVlan;
use crate::vrf::InfoVrf;
use npr_base::{
    AttributeSet, DecodeError, EmitError, Form, Looks, parse_list, read_bytes, write_bytes,
};
use npr_link_bridge::InfoBridge;
use npr_link_devices::{
    InfoBond, InfoHsr, InfoIpVlan, InfoIpVtap, InfoIpoib, InfoMacSec, InfoMacVlan, InfoMacVtap,
    InfoTun,
};
use npr_link_tunnels::{
    InfoForm, InfoGeneve, InfoGre, InfoGre6, InfoGtp, InfoIpTunnel, InfoOvpn, InfoVti, InfoVxlan,
    InfoXfrm,
};
use std::alloc::{AllocError, Global};

/// The data of a link: what they are follows from the first kind in the list that they stand in.
#[derive(Debug, Drop, PartialEq, Eq)]
pub enum InfoData {
    /// A bridge.
    Bridge(Vec<InfoBridge>),
    /// A tunnel to a program.
    Tun(Vec<InfoTun>),
    /// A VLAN.
    Vlan(Vec<InfoVlan>),
    /// One of a pair.
    Veth(Vec<InfoVeth>),
    /// A tunnel of VXLAN.
    Vxlan(Vec<InfoVxlan>),
    /// A bond.
    Bond(Vec<InfoBond>),
    /// A link that shares the address of the one under it.
    IpVlan(Vec<InfoIpVlan>),
    /// The same, with a character device.
    IpVtap(Vec<InfoIpVtap>),
    /// A link with an address of its own over another.
    MacVlan(Vec<InfoMacVlan>),
    /// The same, with a character device.
    MacVtap(Vec<InfoMacVtap>),
    /// Ethernet over GRE.
    GreTap(Vec<InfoGre>),
    /// Ethernet over GRE over IP version 6.
    GreTap6(Vec<InfoGre6>),
    /// A tunnel of IP in IP, over version 4 or 6.
    IpTunnel(Vec<InfoIpTunnel>),
    /// GRE.
    GreTun(Vec<InfoGre>),
    /// GRE over IP version 6.
    GreTun6(Vec<InfoGre6>),
    /// A virtual tunnel interface, over version 4 or 6.
    Vti(Vec<InfoVti>),
    /// A routing domain.
    Vrf(Vec<InfoVrf>),
    /// An IPsec interface.
    Xfrm(Vec<InfoXfrm>),
    /// A tunnel of Geneve.
    Geneve(Vec<InfoGeneve>),
    /// One of a pair that runs programs.
    Netkit(Vec<InfoNetkit>),
    /// A tunnel of ERSPAN.
    Erspan(Vec<InfoGre>),
    /// A tunnel of ERSPAN over IP version 6.
    Erspan6(Vec<InfoGre6>),
    /// One of a pair of CAN.
    Vxcan(Vec<InfoVeth>),
    /// A ring of IEC 62439-3.
    Hsr(Vec<InfoHsr>),
    /// IP over InfiniBand.
    Ipoib(Vec<InfoIpoib>),
    /// A link of MACsec.
    MacSec(Vec<InfoMacSec>),
    /// A tunnel of GTP.
    Gtp(Vec<InfoGtp>),
    /// A tunnel of OpenVPN.
    Ovpn(Vec<InfoOvpn>),
    /// The bytes of data that nothing governs, or a kind without a family.
    Other(Vec<u8>),
}

/// The variants that hold attributes.
macro_rules! variants {
    ($body:ident ($($given:tt)*)) => {
        npr_base::$body!(($($given)*) InfoData {
            Bridge(list InfoBridge);
            Tun(list InfoTun);
            Vlan(list InfoVlan);
            Veth(list InfoVeth);
            Vxlan(list InfoVxlan);
            Bond(list InfoBond);
            IpVlan(list InfoIpVlan);
            IpVtap(list InfoIpVlan);
            MacVlan(list InfoMacVlan);
            MacVtap(list InfoMacVlan);
            GreTap(list InfoGre);
            GreTap6(list InfoGre6);
            IpTunnel(list InfoIpTunnel);
            GreTun(list InfoGre);
            GreTun6(list InfoGre6);
            Vti(list InfoVti);
            Vrf(list InfoVrf);
            Xfrm(list InfoXfrm);
            Geneve(list InfoGeneve);
            Netkit(list InfoNetkit);
            Erspan(list InfoGre);
            Erspan6(list InfoGre6);
            Vxcan(list InfoVeth);
            Hsr(list InfoHsr);
            Ipoib(list InfoIpoib);
            MacSec(list InfoMacSec);
            Gtp(list InfoGtp);
            Ovpn(list InfoOvpn);
        })
    };
}

impl InfoData {
    /// The data of these bytes. Each look at a header is counted.
    ///
    /// # Errors
    /// `OutOfMemory` where memory is refused, and else the first fault in reading order.
    pub(crate) fn read(
        alloc: Global,
        form: InfoForm,
        bytes: &[u8],
        looks: &mut Looks,
    ) -> Result<Self, DecodeError>
        ensures ok { IfOk result (λ x. (info_data form).Reads bytes.now (info_data_of x)) }
        ensures refused { IfErr result (λ e. e ≢ OutOfMemory → (info_data form).Wrong no_place bytes.now e) }
        ensures exact { Answered result → TakesInside (info_data form).members.looks bytes.now looks.old looks.new }
        // Memory is taken for a first whole attribute, and for bytes that are kept.
        ensures memory { IsErrOf result OutOfMemory → (case form).memory bytes.now }
        ensures bounded { AddsAtMost looks.old looks.new (length bytes.now) }
    {
        match form {
            InfoForm::Bridge => Ok(InfoData::Bridge(parse_list(alloc, (), bytes, looks)?)),
            InfoForm::Tun => Ok(InfoData::Tun(parse_list(alloc, (), bytes, looks)?)),
            InfoForm::Vlan => Ok(InfoData::Vlan(parse_list(alloc, (), bytes, looks)?)),
            InfoForm::Veth => Ok(InfoData::Veth(parse_list(alloc, (), bytes, looks)?)),
            InfoForm::Vxlan => Ok(InfoData::Vxlan(parse_list(alloc, (), bytes, looks)?)),
            InfoForm::Bond => Ok(InfoData::Bond(parse_list(alloc, (), bytes, looks)?)),
            InfoForm::IpVlan => Ok(InfoData::IpVlan(parse_list(alloc, (), bytes, looks)?)),
            InfoForm::IpVtap => Ok(InfoData::IpVtap(parse_list(alloc, (), bytes, looks)?)),
            InfoForm::MacVlan => Ok(InfoData::MacVlan(parse_list(alloc, (), bytes, looks)?)),
            InfoForm::MacVtap => Ok(InfoData::MacVtap(parse_list(alloc, (), bytes, looks)?)),
            InfoForm::GreTap => Ok(InfoData::GreTap(parse_list(alloc, (), bytes, looks)?)),
            InfoForm::GreTap6 => Ok(InfoData::GreTap6(parse_list(alloc, (), bytes, looks)?)),
            InfoForm::IpIp => Ok(InfoData::IpTunnel(parse_list(
                alloc,
                InfoForm::IpIp,
                bytes,
                looks,
            )?)),
            InfoForm::Ip6Tnl => Ok(InfoData::IpTunnel(parse_list(
                alloc,
                InfoForm::Ip6Tnl,
                bytes,
                looks,
            )?)),
            InfoForm::SitTun => Ok(InfoData::IpTunnel(parse_list(
                alloc,
                InfoForm::SitTun,
                bytes,
                looks,
            )?)),
            InfoForm::GreTun => Ok(InfoData::GreTun(parse_list(alloc, (), bytes, looks)?)),
            InfoForm::GreTun6 => Ok(InfoData::GreTun6(parse_list(alloc, (), bytes, looks)?)),
            InfoForm::Vti => Ok(InfoData::Vti(parse_list(alloc, (), bytes, looks)?)),
            InfoForm::Vti6 => Ok(InfoData::Vti(parse_list(alloc, (), bytes, looks)?)),
            InfoForm::Vrf => Ok(InfoData::Vrf(parse_list(alloc, (), bytes, looks)?)),
            InfoForm::Xfrm => Ok(InfoData::Xfrm(parse_list(alloc, (), bytes, looks)?)),
            InfoForm::Geneve => Ok(InfoData::Geneve(parse_list(alloc, (), bytes, looks)?)),
            InfoForm::Netkit => Ok(InfoData::Netkit(parse_list(alloc, (), bytes, looks)?)),
            InfoForm::Erspan => Ok(InfoData::Erspan(parse_list(alloc, (), bytes, looks)?)),
            InfoForm::Erspan6 => Ok(InfoData::Erspan6(parse_list(alloc, (), bytes, looks)?)),
            InfoForm::Vxcan => Ok(InfoData::Vxcan(parse_list(alloc, (), bytes, looks)?)),
            InfoForm::Hsr => Ok(InfoData::Hsr(parse_list(alloc, (), bytes, looks)?)),
            InfoForm::Ipoib => Ok(InfoData::Ipoib(parse_list(alloc, (), bytes, looks)?)),
            InfoForm::MacSec => Ok(InfoData::MacSec(parse_list(alloc, (), bytes, looks)?)),
            InfoForm::Gtp => Ok(InfoData::Gtp(parse_list(alloc, (), bytes, looks)?)),
            InfoForm::Ovpn => Ok(InfoData::Ovpn(parse_list(alloc, (), bytes, looks)?)),
            InfoForm::Kept => Ok(InfoData::Other(read_bytes(alloc, bytes)?)),
        }
    }

    /// How the data are read without memory.
    pub(crate) fn form(form: InfoForm) -> Form
        ensures { result ≡ (info_data form).showing.form }
    {
        let set = match form {
            InfoForm::Bridge => AttributeSet::InfoBridge,
            InfoForm::Tun => AttributeSet::InfoTun,
            InfoForm::Vlan => AttributeSet::InfoVlan,
            InfoForm::Veth | InfoForm::Vxcan => AttributeSet::InfoVeth,
            InfoForm::Vxlan => AttributeSet::InfoVxlan,
            InfoForm::Bond => AttributeSet::InfoBond,
            InfoForm::IpVlan | InfoForm::IpVtap => AttributeSet::InfoIpVlan,
            InfoForm::MacVlan | InfoForm::MacVtap => AttributeSet::InfoMacVlan,
            InfoForm::GreTap | InfoForm::GreTun | InfoForm::Erspan => AttributeSet::InfoGre,
            InfoForm::GreTap6 | InfoForm::GreTun6 | InfoForm::Erspan6 => AttributeSet::InfoGre6,
            InfoForm::IpIp | InfoForm::Ip6Tnl | InfoForm::SitTun => AttributeSet::InfoIpTunnel,
            InfoForm::Vti | InfoForm::Vti6 => AttributeSet::InfoVti,
            InfoForm::Vrf => AttributeSet::InfoVrf,
            InfoForm::Xfrm => AttributeSet::InfoXfrm,
            InfoForm::Geneve => AttributeSet::InfoGeneve,
            InfoForm::Netkit => AttributeSet::InfoNetkit,
            InfoForm::Hsr => AttributeSet::InfoHsr,
            InfoForm::Ipoib => AttributeSet::InfoIpoib,
            InfoForm::MacSec => AttributeSet::InfoMacSec,
            InfoForm::Gtp => AttributeSet::InfoGtp,
            InfoForm::Ovpn => AttributeSet::InfoOvpn,
            InfoForm::Kept => return Form::Raw,
        };
        Form::List(set, 0)
    }

    /// An equal value.
    ///
    /// # Errors
    /// `AllocError` where memory is refused; where nothing stands in it none is taken.
    pub fn try_clone(&self, alloc: Global) -> Result<Self, AllocError>
        ensures ok { IfOk result (λ x. info_data_of x ≡ info_data_of self.now) }
        ensures memory { OnErr result (0 < (held (info_data_of self.now)).size) }
    {
        variants!(data_cloned(self, alloc;
            InfoData::Other(bytes) => read_bytes(alloc, bytes.as_slice()).map(InfoData::Other),
        ))
    }

    /// The length of the bytes, or the first cause inside why there are none.
    pub(crate) fn check(&self) -> Result<usize, EmitError>
        ensures { result ≡ checked (held (info_data_of self.now)).unfit (length (held (info_data_of self.now)).encoded) }
    {
        variants!(data_checked(self; InfoData::Other(bytes) => Ok(bytes.len()),))
    }

    /// Writes the bytes at the front of the slice, leaves the rest, and answers their length.
    pub(crate) fn write(&self, out: &mut [u8]) -> usize
        requires fits { (held (info_data_of self.now)).unfit ≡ None }
        requires room { length (held (info_data_of self.now)).encoded ≤ length out.old }
        ensures len { result ≡ length (held (info_data_of self.now)).encoded }
        ensures after { Writes out.old out.new (held (info_data_of self.now)).encoded }
    {
        variants!(data_written(self, out;
            InfoData::Other(bytes) => write_bytes(bytes.as_slice(), out),
        ))
    }
}
