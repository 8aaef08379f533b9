//! The realms of a route: the value of `RTA_FLOW` of `linux/rtnetlink.h`.

ghost use Rattle.std.specs.Prelude.{◌≡◌, IfOk, IfErr};
ghost use Rattle.{npr_base.specs.{Codec.{exactly}, Refusal.{no_place}}, npr_route_values.specs.Realm.{realms, route_realm}};

use npr_base::{At, DecodeError, EmitError, Emitable, read_u32, write_array};

/// The realms of a route.
///
/// Layout (`RTA_FLOW` of `linux/rtnetlink.h`), 4 bytes, a number in little endian: its low half is
/// the destination, and its high half the source.
#[derive(Clone, Copy, Debug, PartialEq, Eq)]
pub struct RouteRealm {
    /// The realm that a packet comes from.
    pub source: u16,
    /// The realm that it goes to.
    pub destination: u16,
}

impl From<u32> for RouteRealm {
    ghost from_gives = { λ number realm. realm ≡ realms.of number };

    fn from(number: u32) -> RouteRealm {
        RouteRealm {
            source: (number / 0x1_0000) as u16,
            destination: (number % 0x1_0000) as u16,
        }
    }
}

impl From<RouteRealm> for u32 {
    ghost from_gives = { λ realm number. number ≡ realms.number realm };

    fn from(realm: RouteRealm) -> u32 {
        u32::from(realm.source) * 0x1_0000 + u32::from(realm.destination)
    }
}

impl RouteRealm {
    /// The realms of four bytes, little endian.
    ///
    /// # Errors
    /// `ValueLength` at another length.
    pub fn parse(bytes: &[u8]) -> Result<Self, DecodeError>
        ensures ok { IfOk result (λ realm. (exactly route_realm).Reads bytes.now realm) }
        ensures refused { IfErr result (λ e. (exactly route_realm).Wrong no_place bytes.now e) }
    {
        Ok(RouteRealm::from(read_u32(bytes, At::NO_PLACE)?))
    }
}

impl Emitable for RouteRealm {
    ghost bytes = { route_realm.encode };

    fn check(&self) -> Result<usize, EmitError> {
        Ok(4)
    }

    fn emit(&self, out: &mut [u8]) {
        write_array(u32::from(*self).to_le_bytes(), out);
    }
}
