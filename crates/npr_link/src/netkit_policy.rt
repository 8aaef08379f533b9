//! What is done with packets where no program stands: `enum netkit_action` of `linux/if_link.h`.

ghost use Rattle.std.specs.Prelude.{◌≡◌};
ghost use Rattle.npr_link.specs.NetkitPolicy.{netkit_policies};

/// What is done with packets where no program stands: `enum netkit_action` of `linux/if_link.h`. It is written as 4 bytes.
#[derive(Clone, Copy, Debug, PartialEq, Eq)]
pub enum NetkitPolicy {
    /// They pass (`NETKIT_PASS`).
    Pass,
    /// They are dropped (`NETKIT_DROP`).
    Drop,
    /// They are redirected (`NETKIT_REDIRECT`).
    Redirect,
    /// Any other number.
    Other(u32),
}

impl NetkitPolicy {
    /// Another name of [`NetkitPolicy::Pass`].
    pub const Forward: NetkitPolicy = NetkitPolicy::Pass;
}

/// Their numbers.
macro_rules! numbers {
    ($body:ident ($($given:tt)*)) => {
        npr_base::$body!(($($given)*) NetkitPolicy {
            0 Pass;
            2 Drop;
            7 Redirect;
        })
    };
}

impl From<u32> for NetkitPolicy {
    ghost from_gives = { λ number value. value ≡ netkit_policies.of number };

    fn from(number: u32) -> NetkitPolicy {
        numbers!(variant_of_number(number))
    }
}

impl From<NetkitPolicy> for u32 {
    ghost from_gives = { λ value number. number ≡ netkit_policies.number value };

    fn from(value: NetkitPolicy) -> u32 {
        numbers!(number_of_variant(value))
    }
}
