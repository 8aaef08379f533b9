//! Which header of a packet a key is of: `TCA_PEDIT_KEY_EX_HDR_TYPE_*` of
//! `linux/tc_act/tc_pedit.h`.

ghost use Rattle.std.specs.Prelude.{◌≡◌};
ghost use Rattle.npr_tc_actions.specs.PeditHeaderType.{pedit_header_types};

/// Which header of a packet a key is of: `TCA_PEDIT_KEY_EX_HDR_TYPE_*` of
/// `linux/tc_act/tc_pedit.h`. It is written as 2 bytes, little endian.
#[derive(Clone, Copy, Debug, PartialEq, Eq)]
pub enum TcPeditHeaderType {
    /// `TCA_PEDIT_KEY_EX_HDR_TYPE_NETWORK`: the header of the network layer, whichever it is.
    Network,
    /// `TCA_PEDIT_KEY_EX_HDR_TYPE_ETH`: that of Ethernet.
    Eth,
    /// `TCA_PEDIT_KEY_EX_HDR_TYPE_IP4`: that of IP, version 4.
    Ip4,
    /// `TCA_PEDIT_KEY_EX_HDR_TYPE_IP6`: that of IP, version 6.
    Ip6,
    /// `TCA_PEDIT_KEY_EX_HDR_TYPE_TCP`: that of TCP.
    Tcp,
    /// `TCA_PEDIT_KEY_EX_HDR_TYPE_UDP`: that of UDP.
    Udp,
    /// Any other number.
    Other(u16),
}

/// Their numbers.
macro_rules! numbers {
    ($body:ident ($($given:tt)*)) => {
        npr_base::$body!(($($given)*) TcPeditHeaderType {
            0 Network;
            1 Eth;
            2 Ip4;
            3 Ip6;
            4 Tcp;
            5 Udp;
        })
    };
}

impl From<u16> for TcPeditHeaderType {
    ghost from_gives = { λ number value. value ≡ pedit_header_types.of number };

    fn from(number: u16) -> TcPeditHeaderType {
        numbers!(variant_of_number(number))
    }
}

impl From<TcPeditHeaderType> for u16 {
    ghost from_gives = { λ value number. number ≡ pedit_header_types.number value };

    fn from(value: TcPeditHeaderType) -> u16 {
        numbers!(number_of_variant(value))
    }
}
