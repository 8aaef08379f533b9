//! The kind of a link: `IFLA_INFO_KIND` of `linux/if_link.h`, by the names of the kernel's drivers.

ghost use Rattle.std.specs.Prelude.{◌≡◌, ◌≢◌, ◌≤◌, ◌+◌, ℕ, List, Some, length, IfOk, IfErr, IsErrOf, OnErr};
ghost use Rattle.{
  npr_base.specs.{declared.refusal.DecodeError.TheVariants.{OutOfMemory}, Framing.{Writes}, Refusal.{no_place}},
  npr_link.specs.{Kinds.{IsKnown, TakesMemory, other, kind_in, kind_name}, InfoKind.{info_kind_of, info_kind_names, info_kind, form_named}},
};

use crate::{name_of_variant, variant_cloned, variant_of_name};
use npr_base::{At, DecodeError, without_zero, write_name};
use npr_link_tunnels::InfoForm;
use std::alloc::{AllocError, Global};
use std::fmt;
use std::str::from_utf8;

/// The kind of a link, by its name.
#[derive(Debug, Drop, PartialEq, Eq)]
pub enum InfoKind {
    /// `dummy`: drops what is sent.
    Dummy,
    /// `ifb`: an intermediate functional block.
    Ifb,
    /// `bridge`: a bridge.
    Bridge,
    /// `tun`: a tunnel to a program.
    Tun,
    /// `nlmon`: a monitor of netlink.
    Nlmon,
    /// `vlan`: a VLAN.
    Vlan,
    /// `veth`: one of a pair.
    Veth,
    /// `vxlan`: a tunnel of VXLAN.
    Vxlan,
    /// `bond`: a bond.
    Bond,
    /// `ipvlan`: shares the address of the link under it.
    IpVlan,
    /// `ipvtap`: the same, with a character device.
    IpVtap,
    /// `macvlan`: an address of its own over a link.
    MacVlan,
    /// `macvtap`: the same, with a character device.
    MacVtap,
    /// `gretap`: Ethernet over GRE.
    GreTap,
    /// `ip6gretap`: Ethernet over GRE over IP version 6.
    GreTap6,
    /// `ipip`: IP version 4 in version 4.
    IpIp,
    /// `ip6tnl`: a tunnel over IP version 6.
    Ip6Tnl,
    /// `sit`: IP version 6 in version 4.
    SitTun,
    /// `gre`: GRE.
    GreTun,
    /// `ip6gre`: GRE over IP version 6.
    GreTun6,
    /// `vti`: a virtual tunnel interface.
    Vti,
    /// `vrf`: a routing domain.
    Vrf,
    /// `gtp`: a tunnel of GTP.
    Gtp,
    /// `ipoib`: IP over InfiniBand.
    Ipoib,
    /// `wireguard`: WireGuard.
    Wireguard,
    /// `xfrm`: an IPsec interface.
    Xfrm,
    /// `macsec`: MACsec.
    MacSec,
    /// `hsr`: a ring of IEC 62439-3.
    Hsr,
    /// `geneve`: a tunnel of Geneve.
    Geneve,
    /// `netkit`: one of a pair that runs programs.
    Netkit,
    /// `vti6`: a virtual tunnel interface over IP version 6.
    Vti6,
    /// `erspan`: a tunnel of ERSPAN.
    Erspan,
    /// `ip6erspan`: a tunnel of ERSPAN over IP version 6.
    Erspan6,
    /// `vxcan`: one of a pair of CAN.
    Vxcan,
    /// `ovpn`: a tunnel of OpenVPN.
    Ovpn,
    /// Any other name.
    Other(String),
}

/// Their names.
macro_rules! names {
    ($body:ident ($($given:tt)*)) => {
        $body!(($($given)*) InfoKind {
            "dummy" Dummy;
            "ifb" Ifb;
            "bridge" Bridge;
            "tun" Tun;
            "nlmon" Nlmon;
            "vlan" Vlan;
            "veth" Veth;
            "vxlan" Vxlan;
            "bond" Bond;
            "ipvlan" IpVlan;
            "ipvtap" IpVtap;
            "macvlan" MacVlan;
            "macvtap" MacVtap;
            "gretap" GreTap;
            "ip6gretap" GreTap6;
            "ipip" IpIp;
            "ip6tnl" Ip6Tnl;
            "sit" SitTun;
            "gre" GreTun;
            "ip6gre" GreTun6;
            "vti" Vti;
            "vrf" Vrf;
            "gtp" Gtp;
            "ipoib" Ipoib;
            "wireguard" Wireguard;
            "xfrm" Xfrm;
            "macsec" MacSec;
            "hsr" Hsr;
            "geneve" Geneve;
            "netkit" Netkit;
            "vti6" Vti6;
            "erspan" Erspan;
            "ip6erspan" Erspan6;
            "vxcan" Vxcan;
            "ovpn" Ovpn;
        })
    };
}

/// What governs data, by the names of the kinds.
macro_rules! forms {
    ($body:ident ($($given:tt)*)) => {
        npr_base::$body!(($($given)*) InfoForm {
            "bridge" Bridge;
            "tun" Tun;
            "vlan" Vlan;
            "veth" Veth;
            "vxlan" Vxlan;
            "bond" Bond;
            "ipvlan" IpVlan;
            "ipvtap" IpVtap;
            "macvlan" MacVlan;
            "macvtap" MacVtap;
            "gretap" GreTap;
            "ip6gretap" GreTap6;
            "ipip" IpIp;
            "ip6tnl" Ip6Tnl;
            "sit" SitTun;
            "gre" GreTun;
            "ip6gre" GreTun6;
            "vti" Vti;
            "vrf" Vrf;
            "xfrm" Xfrm;
            "geneve" Geneve;
            "netkit" Netkit;
            "vti6" Vti6;
            "hsr" Hsr;
            "ipoib" Ipoib;
            "macsec" MacSec;
            "gtp" Gtp;
            "ovpn" Ovpn;
            "erspan" Erspan;
            "ip6erspan" Erspan6;
            "vxcan" Vxcan;
        })
    };
}

/// The kind that has this name.
fn known(text: &str) -> Option<InfoKind>
    ensures { IsKnown info_kind_of info_kind_names text.now result }
{
    names!(variant_of_name(text))
}

/// The kind of this name.
///
/// # Errors
/// `AllocError` where memory is refused, which is taken for a name that is not known alone.
fn named(alloc: Global, text: &str) -> Result<InfoKind, AllocError>
    ensures ok { IfOk result (λ x. info_kind_of x ≡ kind_in info_kind_names text.now) }
    ensures memory { OnErr result (kind_in info_kind_names text.now ≡ other text.now) }
{
    match known(text) {
        Some(kind) => Ok(kind),
        None => String::from_str(alloc, text).map(InfoKind::Other),
    }
}

/// What governs data under a kind of this name.
pub(crate) fn form_of_name(name: &[u8]) -> InfoForm
    ensures { result ≡ form_named name.now }
{
    forms!(form_of_kind(name))
}

impl InfoKind {
    /// The kind of a name, with one final zero taken off where there is one.
    ///
    /// # Errors
    /// `NotUtf8`, and `OutOfMemory` where memory is refused.
    pub fn parse(alloc: Global, bytes: &[u8]) -> Result<Self, DecodeError>
        ensures ok { IfOk result (λ x. info_kind.Reads bytes.now (info_kind_of x)) }
        ensures refused { IfErr result (λ e. e ≢ OutOfMemory → info_kind.Wrong no_place bytes.now e) }
        ensures memory { IsErrOf result OutOfMemory → TakesMemory info_kind_names bytes.now }
    {
        Self::read(alloc, bytes, At::NO_PLACE)
    }

    /// The kind of a name at a place.
    pub(crate) fn read(alloc: Global, bytes: &[u8], at: At) -> Result<Self, DecodeError>
        ensures ok { IfOk result (λ x. info_kind.Reads bytes.now (info_kind_of x)) }
        ensures refused { IfErr result (λ e. e ≢ OutOfMemory → info_kind.Wrong at bytes.now e) }
        // Memory is taken for a name that is not known alone.
        ensures memory { IsErrOf result OutOfMemory → TakesMemory info_kind_names bytes.now }
    {
        match from_utf8(without_zero(bytes)) {
            Ok(text) => Ok(named(alloc, text)?),
            Err(_) => Err(DecodeError::NotUtf8 { at }),
        }
    }

    /// The name.
    pub fn name(&self) -> &str
        ensures { result.now ≡ kind_name (info_kind_of self.now) }
    {
        names!(name_of_variant(self))
    }

    /// What governs data under it.
    pub fn form(&self) -> InfoForm
        ensures { result ≡ form_named (kind_name (info_kind_of self.now)) }
    {
        form_of_name(self.name().as_bytes())
    }

    /// An equal kind.
    ///
    /// # Errors
    /// `AllocError` where memory is refused, which is taken for a name that is not known alone.
    pub fn try_clone(&self, alloc: Global) -> Result<Self, AllocError>
        ensures ok { IfOk result (λ x. info_kind_of x ≡ info_kind_of self.now) }
        ensures memory { OnErr result ((text : List ℕ) × (info_kind_of self.now ≡ other text)) }
    {
        names!(variant_cloned(self, alloc))
    }

    /// The length of the name with its zero.
    pub(crate) fn len(&self) -> usize
        ensures { result ≡ length (info_kind.encode (info_kind_of self.now)) }
    {
        self.name().len() + 1
    }

    /// Writes the name and its zero at the front of the slice, leaves the rest, and answers their length.
    pub(crate) fn write(&self, out: &mut [u8]) -> usize
        requires { length (info_kind.encode (info_kind_of self.now)) ≤ length out.old }
        ensures len { result ≡ length (info_kind.encode (info_kind_of self.now)) }
        ensures after { Writes out.old out.new (info_kind.encode (info_kind_of self.now)) }
    {
        write_name(self.name(), out)
    }
}

/// The name.
impl fmt::Display for InfoKind {
    ghost output = { λ x. Some (kind_name (info_kind_of x)) };

    fn fmt<W: fmt::Write>(&self, f: &mut fmt::Formatter<W>) -> fmt::Result {
        f.write_str(self.name())
    }
}
