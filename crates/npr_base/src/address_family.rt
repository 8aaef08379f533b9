//! Address families: `AF_*` of `linux/socket.h`.

ghost use Rattle.std.specs.Prelude.{◌≡◌, Some};
ghost use Rattle.npr_base.specs.AddressFamily.{families, family_text};

use crate::{number_of_variant, variant_of_number, write_variant};
use std::fmt;

/// An address family: `AF_*` of `linux/socket.h`.
#[derive(Clone, Copy, Debug, Default, PartialEq, Eq)]
pub enum AddressFamily {
    /// Any, or none.
    #[default]
    Unspec,
    /// Sockets of this machine.
    Unix,
    /// IP, version 4.
    Inet,
    /// Amateur radio's AX.25.
    Ax25,
    /// Novell's IPX.
    Ipx,
    /// AppleTalk's DDP.
    Appletalk,
    /// Amateur radio's NET/ROM.
    Netrom,
    /// Bridges of several protocols.
    Bridge,
    /// ATM's permanent circuits.
    Atmpvc,
    /// X.25.
    X25,
    /// IP, version 6.
    Inet6,
    /// Amateur radio's X.25 packet layer.
    Rose,
    /// DECnet.
    Decnet,
    /// NetBEUI, of 802.2 LLC.
    Netbeui,
    /// Callbacks of security modules.
    Security,
    /// Management of keys.
    Key,
    /// Netlink, as `Route`.
    Netlink,
    /// Packets as a device sees them.
    Packet,
    /// Ash.
    Ash,
    /// Acorn's Econet.
    Econet,
    /// ATM's switched circuits.
    Atmsvc,
    /// Reliable datagrams.
    Rds,
    /// Linux-SNA.
    Sna,
    /// Infrared.
    Irda,
    /// PPP over something else.
    Pppox,
    /// Wanpipe.
    Wanpipe,
    /// 802.2 LLC.
    Llc,
    /// InfiniBand.
    Ib,
    /// Labels of MPLS.
    Mpls,
    /// Controller area networks.
    Can,
    /// TIPC.
    Tipc,
    /// Bluetooth.
    Bluetooth,
    /// IUCV of mainframes.
    Iucv,
    /// RxRPC.
    Rxrpc,
    /// ISDN.
    Isdn,
    /// Phonet.
    Phonet,
    /// IEEE 802.15.4.
    Ieee802154,
    /// CAIF.
    Caif,
    /// Algorithms of the kernel.
    Alg,
    /// Near field communication.
    Nfc,
    /// Sockets between a guest and its host.
    Vsock,
    /// Multiplexed connections of the kernel.
    Kcm,
    /// Qualcomm's IPC router.
    Qipcrtr,
    /// Shared memory in place of TCP.
    Smc,
    /// Sockets of XDP.
    Xdp,
    /// Management components, MCTP.
    Mctp,
    /// Written as `Unix` is; no number reads as it.
    Local,
    /// Written as `Netlink` is; no number reads as it.
    Route,
    /// Any other number.
    Other(u8),
}

/// Their numbers and names.
macro_rules! numbers {
    ($body:ident ($($given:tt)*)) => {
        $body!(($($given)*) AddressFamily {
            0 Unspec "unspec";
            1 Unix "unix";
            2 Inet "inet";
            3 Ax25 "ax25";
            4 Ipx "ipx";
            5 Appletalk "appletalk";
            6 Netrom "netrom";
            7 Bridge "bridge";
            8 Atmpvc "atmpvc";
            9 X25 "x25";
            10 Inet6 "inet6";
            11 Rose "rose";
            12 Decnet "decnet";
            13 Netbeui "netbeui";
            14 Security "security";
            15 Key "key";
            16 Netlink "netlink";
            17 Packet "packet";
            18 Ash "ash";
            19 Econet "econet";
            20 Atmsvc "atmsvc";
            21 Rds "rds";
            22 Sna "sna";
            23 Irda "irda";
            24 Pppox "pppox";
            25 Wanpipe "wanpipe";
            26 Llc "llc";
            27 Ib "ib";
            28 Mpls "mpls";
            29 Can "can";
            30 Tipc "tipc";
            31 Bluetooth "bluetooth";
            32 Iucv "iucv";
            33 Rxrpc "rxrpc";
            34 Isdn "isdn";
            35 Phonet "phonet";
            36 Ieee802154 "ieee802154";
            37 Caif "caif";
            38 Alg "alg";
            39 Nfc "nfc";
            40 Vsock "vsock";
            41 Kcm "kcm";
            42 Qipcrtr "qipcrtr";
            43 Smc "smc";
            44 Xdp "xdp";
            45 Mctp "mctp";
        } {
            1 Local "local";
            16 Route "route";
        })
    };
}

impl From<u8> for AddressFamily {
    ghost from_gives = { λ number family. family ≡ families.of number };

    fn from(number: u8) -> AddressFamily {
        numbers!(variant_of_number(number))
    }
}

impl From<AddressFamily> for u8 {
    ghost from_gives = { λ family number. number ≡ families.number family };

    fn from(family: AddressFamily) -> u8 {
        numbers!(number_of_variant(family))
    }
}

/// The name in lower case, and of any other family its number.
impl fmt::Display for AddressFamily {
    ghost output = { λ family. Some (family_text family) };

    fn fmt<W: fmt::Write>(&self, f: &mut fmt::Formatter<W>) -> fmt::Result {
        numbers!(write_variant(self, f, "{}"))
    }
}
