//! What a packet's port is chosen by: `BOND_XMIT_POLICY_*` of `linux/if_bonding.h`.

ghost use Rattle.std.specs.Prelude.{◌≡◌, Some};
ghost use Rattle.npr_link_devices.specs.XmitHashPolicy.{xmit_hash_policies, xmit_hash_policy_text};

use std::fmt;

/// What a packet's port is chosen by: `BOND_XMIT_POLICY_*` of `linux/if_bonding.h`. It is written as 1 byte.
#[derive(Clone, Copy, Debug, Default, PartialEq, Eq)]
pub enum BondXmitHashPolicy {
    /// By layer 2.
    #[default]
    Layer2,
    /// By layers 3 and 4.
    Layer34,
    /// By layers 2 and 3.
    Layer23,
    /// By layers 2 and 3, also of what a tunnel carries.
    Encap23,
    /// By layers 3 and 4, also of what a tunnel carries.
    Encap34,
    /// By VLAN and source.
    VlanSrcMac,
    /// Any other number.
    Other(u8),
}

/// Their numbers and names.
macro_rules! numbers {
    ($body:ident ($($given:tt)*)) => {
        npr_base::$body!(($($given)*) BondXmitHashPolicy {
            0 Layer2 "layer2";
            1 Layer34 "layer34";
            2 Layer23 "layer23";
            3 Encap23 "encap23";
            4 Encap34 "encap34";
            5 VlanSrcMac "vlan-src-mac";
        })
    };
}

impl From<u8> for BondXmitHashPolicy {
    ghost from_gives = { λ number value. value ≡ xmit_hash_policies.of number };

    fn from(number: u8) -> BondXmitHashPolicy {
        numbers!(variant_of_number(number))
    }
}

impl From<BondXmitHashPolicy> for u8 {
    ghost from_gives = { λ value number. number ≡ xmit_hash_policies.number value };

    fn from(value: BondXmitHashPolicy) -> u8 {
        numbers!(number_of_variant(value))
    }
}

/// The name, and of any other its number.
impl fmt::Display for BondXmitHashPolicy {
    ghost output = { λ value. Some (xmit_hash_policy_text value) };

    fn fmt<W: fmt::Write>(&self, f: &mut fmt::Formatter<W>) -> fmt::Result {
        numbers!(write_variant(self, f, "unknown-variant ({})"))
    }
}
