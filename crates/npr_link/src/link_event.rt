//! What happened to a link: `IFLA_EVENT_*` of `linux/if_link.h`.

ghost use Rattle.std.specs.Prelude.{◌≡◌};
ghost use Rattle.npr_link.specs.LinkEvent.{link_events};

/// What happened to a link: `IFLA_EVENT_*` of `linux/if_link.h`. It is written as 4 bytes, little endian.
#[derive(Clone, Copy, Debug, Default, PartialEq, Eq)]
pub enum LinkEvent {
    /// Nothing.
    #[default]
    None,
    /// Its firmware began anew.
    Reboot,
    /// Its features changed.
    Features,
    /// Another port of the bond is active.
    BondingFailover,
    /// Peers were told of its addresses.
    NotifyPeers,
    /// Multicast groups were joined again.
    IgmpResend,
    /// An option of the bond changed.
    BondingOptions,
    /// Any other number.
    Other(u32),
}

/// Their numbers.
macro_rules! numbers {
    ($body:ident ($($given:tt)*)) => {
        npr_base::$body!(($($given)*) LinkEvent {
            0 None;
            1 Reboot;
            2 Features;
            3 BondingFailover;
            4 NotifyPeers;
            5 IgmpResend;
            6 BondingOptions;
        })
    };
}

impl From<u32> for LinkEvent {
    ghost from_gives = { λ number value. value ≡ link_events.of number };

    fn from(number: u32) -> LinkEvent {
        numbers!(variant_of_number(number))
    }
}

impl From<LinkEvent> for u32 {
    ghost from_gives = { λ value number. number ≡ link_events.number value };

    fn from(value: LinkEvent) -> u32 {
        numbers!(number_of_variant(value))
    }
}
