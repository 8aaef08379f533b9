//! What kind of link it is: `ARPHRD_*` of `linux/if_arp.h`.

ghost use Rattle.std.specs.Prelude.{◌≡◌, Some, option_map};
ghost use Rattle.npr_link.specs.LayerType.{layer_types, layer_type_name, layer_type_text};

use npr_base::{number_of_variant, variant_of_number};
use std::fmt;

/// What kind of link it is: `ARPHRD_*` of `linux/if_arp.h`. It is written as 2 bytes, little endian.
#[derive(Clone, Copy, Debug, Default, PartialEq, Eq)]
pub enum LinkLayerType {
    /// From KA9Q: NET/ROM, and what has no type.
    #[default]
    Netrom,
    /// Ethernet.
    Ether,
    /// Experimental Ethernet.
    Eether,
    /// AX.25.
    Ax25,
    /// PROnet.
    Pronet,
    /// Chaosnet.
    Chaos,
    /// IEEE 802.2.
    Ieee802,
    /// ARCnet.
    Arcnet,
    /// AppleTalk.
    Appletlk,
    /// Frame Relay.
    Dlci,
    /// ATM.
    Atm,
    /// Metricom STRIP.
    Metricom,
    /// IEEE 1394.
    Ieee1394,
    /// EUI-64.
    Eui64,
    /// InfiniBand.
    Infiniband,
    /// SLIP.
    Slip,
    /// SLIP with compressed headers.
    Cslip,
    /// SLIP of six bits.
    Slip6,
    /// SLIP of six bits with compressed headers.
    Cslip6,
    /// Reserved.
    Rsrvd,
    /// ADAPT.
    Adapt,
    /// ROSE.
    Rose,
    /// X.25.
    X25,
    /// Boards with X.25.
    Hwx25,
    /// A controller area network.
    Can,
    /// MCTP.
    Mctp,
    /// PPP.
    Ppp,
    /// HDLC of Cisco.
    Hdlc,
    /// LAPB.
    Lapb,
    /// DDCMP.
    Ddcmp,
    /// Raw HDLC.
    Rawhdlc,
    /// Raw IP.
    Rawip,
    /// A tunnel over IP version 4.
    Tunnel,
    /// A tunnel over IP version 6.
    Tunnel6,
    /// A Frame Relay access device.
    Frad,
    /// SKIP.
    Skip,
    /// The loopback device.
    Loopback,
    /// LocalTalk.
    Localtlk,
    /// FDDI.
    Fddi,
    /// AP1000.
    Bif,
    /// IP version 6 in version 4.
    Sit,
    /// IP over AppleTalk.
    Ipddp,
    /// GRE over IP version 4.
    Ipgre,
    /// The register of PIM.
    Pimreg,
    /// HIPPI.
    Hippi,
    /// Nexus Ash.
    Ash,
    /// Econet.
    Econet,
    /// Infrared.
    Irda,
    /// Fibre Channel, point to point.
    Fcpp,
    /// Fibre Channel, arbitrated loop.
    Fcal,
    /// Fibre Channel, public loop.
    Fcpl,
    /// Fibre Channel, fabric.
    Fcfabric,
    /// Token ring of IEEE 802.2.
    Ieee802Tr,
    /// IEEE 802.11.
    Ieee80211,
    /// IEEE 802.11 with headers of Prism2.
    Ieee80211Prism,
    /// IEEE 802.11 with headers of radiotap.
    Ieee80211Radiotap,
    /// IEEE 802.15.4.
    Ieee802154,
    /// A monitor of IEEE 802.15.4.
    Ieee802154Monitor,
    /// PhoNet.
    Phonet,
    /// The pipe of PhoNet.
    PhonetPipe,
    /// CAIF.
    Caif,
    /// GRE over IP version 6.
    Ip6gre,
    /// Netlink.
    Netlink,
    /// IP version 6 over low power.
    Sixlowpan,
    /// A monitor of vsock.
    Vsockmon,
    /// Nothing: there are no headers.
    None,
    /// Nothing is known.
    Void,
    /// Any other number.
    Other(u16),
}

/// Their numbers and names.
macro_rules! numbers {
    ($body:ident ($($given:tt)*)) => {
        $body!(($($given)*) LinkLayerType {
            0 Netrom "NETROM";
            1 Ether "ETHER";
            2 Eether "EETHER";
            3 Ax25 "AX25";
            4 Pronet "PRONET";
            5 Chaos "CHAOS";
            6 Ieee802 "IEEE802";
            7 Arcnet "ARCNET";
            8 Appletlk "APPLETLK";
            15 Dlci "DLCI";
            19 Atm "ATM";
            23 Metricom "METRICOM";
            24 Ieee1394 "IEEE1394";
            27 Eui64 "EUI64";
            32 Infiniband "INFINIBAND";
            256 Slip "SLIP";
            257 Cslip "CSLIP";
            258 Slip6 "SLIP6";
            259 Cslip6 "CSLIP6";
            260 Rsrvd "RSRVD";
            264 Adapt "ADAPT";
            270 Rose "ROSE";
            271 X25 "X25";
            272 Hwx25 "HWX25";
            280 Can "CAN";
            290 Mctp "MCTP";
            512 Ppp "PPP";
            513 Hdlc "HDLC";
            516 Lapb "LAPB";
            517 Ddcmp "DDCMP";
            518 Rawhdlc "RAWHDLC";
            519 Rawip "RAWIP";
            768 Tunnel "TUNNEL";
            769 Tunnel6 "TUNNEL6";
            770 Frad "FRAD";
            771 Skip "SKIP";
            772 Loopback "LOOPBACK";
            773 Localtlk "LOCALTLK";
            774 Fddi "FDDI";
            775 Bif "BIF";
            776 Sit "SIT";
            777 Ipddp "IPDDP";
            778 Ipgre "IPGRE";
            779 Pimreg "PIMREG";
            780 Hippi "HIPPI";
            781 Ash "ASH";
            782 Econet "ECONET";
            783 Irda "IRDA";
            784 Fcpp "FCPP";
            785 Fcal "FCAL";
            786 Fcpl "FCPL";
            787 Fcfabric "FCFABRIC";
            800 Ieee802Tr "IEEE802_TR";
            801 Ieee80211 "IEEE80211";
            802 Ieee80211Prism "IEEE80211_PRISM";
            803 Ieee80211Radiotap "IEEE80211_RADIOTAP";
            804 Ieee802154 "IEEE802154";
            805 Ieee802154Monitor "IEEE802154_MONITOR";
            820 Phonet "PHONET";
            821 PhonetPipe "PHONET_PIPE";
            822 Caif "CAIF";
            823 Ip6gre "IP6GRE";
            824 Netlink "NETLINK";
            825 Sixlowpan "6LOWPAN";
            826 Vsockmon "VSOCKMON";
            65534 None "NONE";
            65535 Void "VOID";
        })
    };
}

/// The name of a variant, where it has one.
macro_rules! layer_type_name {
    (($of:expr) $set:ident { $($n:literal $variant:ident $text:literal;)* }) => {
        match $of {
            $($set::$variant => Some($text),)*
            $set::Other(_) => None,
        }
    };
}

impl From<u16> for LinkLayerType {
    ghost from_gives = { λ number value. value ≡ layer_types.of number };

    fn from(number: u16) -> LinkLayerType {
        numbers!(variant_of_number(number))
    }
}

impl From<LinkLayerType> for u16 {
    ghost from_gives = { λ value number. number ≡ layer_types.number value };

    fn from(value: LinkLayerType) -> u16 {
        numbers!(number_of_variant(value))
    }
}

impl LinkLayerType {
    /// The name, where it has one.
    fn name(&self) -> Option<&'static str>
        ensures { option_map (λ name. name.now) result ≡ layer_type_name self.now }
    {
        numbers!(layer_type_name(self))
    }
}

/// The name, and of any other its number.
impl fmt::Display for LinkLayerType {
    ghost output = { λ value. Some (layer_type_text value) };

    fn fmt<W: fmt::Write>(&self, f: &mut fmt::Formatter<W>) -> fmt::Result {
        match self.name() {
            Some(name) => f.write_str(name),
            None => write!(f, "{}", u16::from(*self)),
        }
    }
}
