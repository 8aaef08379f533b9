//! What governs the data of a link.

/// What governs the data of a link: the kinds whose data have a set. Each has the number that C sees.
#[derive(Clone, Copy, Debug, PartialEq, Eq)]
pub enum InfoForm {
    /// Data that are kept as they stand.
    Kept = 0,
    /// The data of `bridge`.
    Bridge = 1,
    /// The data of `vlan`.
    Vlan = 2,
    /// The data of `veth`.
    Veth = 3,
    /// The data of `vrf`.
    Vrf = 4,
    /// The data of `tun`.
    Tun = 5,
    /// The data of `vxlan`.
    Vxlan = 6,
    /// The data of `bond`.
    Bond = 7,
    /// The data of `ipvlan`.
    IpVlan = 8,
    /// The data of `ipvtap`.
    IpVtap = 9,
    /// The data of `macvlan`.
    MacVlan = 10,
    /// The data of `macvtap`.
    MacVtap = 11,
    /// The data of `gretap`.
    GreTap = 12,
    /// The data of `ip6gretap`.
    GreTap6 = 13,
    /// The data of `ipip`.
    IpIp = 14,
    /// The data of `ip6tnl`.
    Ip6Tnl = 15,
    /// The data of `sit`.
    SitTun = 16,
    /// The data of `gre`.
    GreTun = 17,
    /// The data of `ip6gre`.
    GreTun6 = 18,
    /// The data of `vti`.
    Vti = 19,
    /// The data of `vti6`.
    Vti6 = 20,
    /// The data of `xfrm`.
    Xfrm = 21,
    /// The data of `geneve`.
    Geneve = 22,
    /// The data of `netkit`.
    Netkit = 23,
    /// The data of `hsr`.
    Hsr = 24,
    /// The data of `ipoib`.
    Ipoib = 25,
    /// The data of `macsec`.
    MacSec = 26,
    /// The data of `gtp`.
    Gtp = 27,
    /// The data of `ovpn`.
    Ovpn = 28,
    /// The data of `erspan`.
    Erspan = 29,
    /// The data of `ip6erspan`.
    Erspan6 = 30,
    /// The data of `vxcan`.
    Vxcan = 31,
}
