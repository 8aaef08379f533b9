//! The laws of this crate. Each function does nothing, and its contract is the law.

ghost use Rattle.std.specs.Prelude.{◌≡◌, ◌*◌, ◌<◌, ◌^◌, ◌↔◌, ℕ, ℤ, List, length, ◌∷◌, [], true};
ghost use Rattle.{
  npr_base.specs.{Equality.{IsEquality, IsEqualityOf}, Rows.{agrees}},
  npr_route_values.specs.{
    IpProtocol.{ip_protocol, ip_protocols},
    Mpls.{label_of, label_number, IsInRange},
    MplsCodec.{mpls_labels},
    Realm.{realms},
    RouteAddress.{Address, address_of, route_address},
    RouteCacheInfo.{route_cache_info},
    RouteFlags.{route_flags, route_flag_bits, next_hop_flags, next_hop_flag_bits},
    RouteMfcStats.{route_mfc_stats},
    RoutePreference.{route_preference, route_preferences},
    RouteProtocol.{route_protocols},
    RouteScope.{route_scope, route_scopes},
    RouteType.{route_type, route_types},
    RouteVia.{Via, via_of, via_value},
    TtlPropagation.{ttl_propagation, ttl_propagations},
  },
};

use crate::{
    IpProtocol, MplsLabel, RouteAddress, RouteCacheInfo, RouteCacheInfoBuffer, RouteFlags,
    RouteMfcStats, RouteMfcStatsBuffer, RouteMplsTtlPropagation, RouteNextHopFlags,
    RoutePreference, RouteProtocol, RouteRealm, RouteScope, RouteType, RouteVia, RouteViaBuffer,
};
use npr_base::AddressFamily;

/// What a number reads as is written as that number.
pub fn law_numbers()
    ensures ip_protocol { (d : ℤ) → ip_protocols.number (ip_protocols.of d) ≡ d }
    ensures route_protocol { (d : ℕ) → route_protocols.number (route_protocols.of d) ≡ d }
    ensures route_scope { (d : ℕ) → route_scopes.number (route_scopes.of d) ≡ d }
    ensures route_type { (d : ℕ) → route_types.number (route_types.of d) ≡ d }
    ensures route_preference { (d : ℕ) → route_preferences.number (route_preferences.of d) ≡ d }
    ensures ttl_propagation { (d : ℕ) → ttl_propagations.number (ttl_propagations.of d) ≡ d }
{}

/// A number is an entry and is written as that number again; an entry is read again exactly where
/// its label and its class have room.
pub fn law_label_number()
    ensures number { (d : ℕ) → d < 2 ^ 32 → label_number (label_of d) ≡ d }
    ensures entry { (x : MplsLabel) → x.ttl < 2 ^ 8 → (label_of (label_number x) ≡ x) ↔ IsInRange x }
{}

/// What is written of a stack is four bytes an entry.
pub fn law_labels_length()
    ensures { (xs : List MplsLabel) → length (mpls_labels.encode xs) ≡ length xs * 4 }
{}

/// A number is two realms and is written as that number again, and two realms of a program are
/// read again.
pub fn law_realm_number()
    ensures number { (d : ℕ) → realms.number (realms.of d) ≡ d }
    ensures realm { (x : RouteRealm) → x.destination < 2 ^ 16 → realms.of (realms.number x) ≡ x }
{}

/// The named flags of a route, by their bits (`linux/rtnetlink.h`).
pub fn law_route_flags()
    ensures { agrees route_flag_bits.number ((2 ^ 0, RouteFlags.Dead) ∷ (2 ^ 1, RouteFlags.Pervasive) ∷ (2 ^ 2, RouteFlags.Onlink)
        ∷ (2 ^ 3, RouteFlags.Offload) ∷ (2 ^ 4, RouteFlags.Linkdown) ∷ (2 ^ 5, RouteFlags.Unresolved) ∷ (2 ^ 6, RouteFlags.Trap)
        ∷ (2 ^ 8, RouteFlags.Notify) ∷ (2 ^ 9, RouteFlags.Cloned) ∷ (2 ^ 10, RouteFlags.Equalize) ∷ (2 ^ 11, RouteFlags.Prefix)
        ∷ (2 ^ 12, RouteFlags.LookupTable) ∷ (2 ^ 13, RouteFlags.FibMatch) ∷ (2 ^ 14, RouteFlags.RtOffload) ∷ (2 ^ 15, RouteFlags.RtTrap)
        ∷ (2 ^ 29, RouteFlags.OffloadFailed) ∷ []) ≡ true }
{}

/// The named flags of a next hop, by their bits (`linux/rtnetlink.h`).
pub fn law_next_hop_flags()
    ensures { agrees next_hop_flag_bits.number ((2 ^ 0, RouteNextHopFlags.Dead) ∷ (2 ^ 1, RouteNextHopFlags.Pervasive)
        ∷ (2 ^ 2, RouteNextHopFlags.Onlink) ∷ (2 ^ 3, RouteNextHopFlags.Offload) ∷ (2 ^ 4, RouteNextHopFlags.Linkdown)
        ∷ (2 ^ 5, RouteNextHopFlags.Unresolved) ∷ (2 ^ 6, RouteNextHopFlags.Trap) ∷ []) ≡ true }
{}

/// `==` answers whether two values are equal, or mean the same where they hold a vector.
pub fn law_equality()
    ensures ip_protocol { IsEquality ⟦<IpProtocol as PartialEq>⟧.eq }
    ensures mpls_label { IsEquality ⟦<MplsLabel as PartialEq>⟧.eq }
    ensures route_realm { IsEquality ⟦<RouteRealm as PartialEq>⟧.eq }
    ensures route_protocol { IsEquality ⟦<RouteProtocol as PartialEq>⟧.eq }
    ensures route_scope { IsEquality ⟦<RouteScope as PartialEq>⟧.eq }
    ensures route_type { IsEquality ⟦<RouteType as PartialEq>⟧.eq }
    ensures route_preference { IsEquality ⟦<RoutePreference as PartialEq>⟧.eq }
    ensures ttl_propagation { IsEquality ⟦<RouteMplsTtlPropagation as PartialEq>⟧.eq }
    ensures route_flags { IsEquality ⟦<RouteFlags as PartialEq>⟧.eq }
    ensures next_hop_flags { IsEquality ⟦<RouteNextHopFlags as PartialEq>⟧.eq }
    ensures cache_info { IsEquality ⟦<RouteCacheInfo as PartialEq>⟧.eq }
    ensures cache_info_buffer { IsEquality ⟦<RouteCacheInfoBuffer as PartialEq>⟧.eq }
    ensures mfc_stats { IsEquality ⟦<RouteMfcStats as PartialEq>⟧.eq }
    ensures mfc_stats_buffer { IsEquality ⟦<RouteMfcStatsBuffer as PartialEq>⟧.eq }
    ensures via_buffer { IsEquality ⟦<RouteViaBuffer as PartialEq>⟧.eq }
    ensures address { IsEqualityOf address_of ⟦<RouteAddress as PartialEq>⟧.eq }
    ensures via { IsEqualityOf via_of ⟦<RouteVia as PartialEq>⟧.eq }
{}

/// Which value is the default.
pub fn law_default()
    ensures ip_protocol { (x : IpProtocol) → ⟦<IpProtocol as Default>⟧.is_default x → x ≡ IpProtocol.Raw }
    ensures route_protocol { (x : RouteProtocol) → ⟦<RouteProtocol as Default>⟧.is_default x → x ≡ RouteProtocol.Unspec }
    ensures route_scope { (x : RouteScope) → ⟦<RouteScope as Default>⟧.is_default x → x ≡ RouteScope.Universe }
    ensures route_type { (x : RouteType) → ⟦<RouteType as Default>⟧.is_default x → x ≡ RouteType.Unspec }
    ensures route_preference { (x : RoutePreference) → ⟦<RoutePreference as Default>⟧.is_default x → x ≡ RoutePreference.Invalid }
    ensures route_flags { (x : RouteFlags) → ⟦<RouteFlags as Default>⟧.is_default x → x ≡ route_flag_bits.of 0 }
    ensures next_hop_flags { (x : RouteNextHopFlags) → ⟦<RouteNextHopFlags as Default>⟧.is_default x → x ≡ next_hop_flag_bits.of 0 }
    ensures cache_info { (x : RouteCacheInfo) → ⟦<RouteCacheInfo as Default>⟧.is_default x → x ≡ record { clntref = 0; last_use = 0; expires = 0; error = 0; used = 0; id = 0; ts = 0; ts_age = 0 } }
    ensures mfc_stats { (x : RouteMfcStats) → ⟦<RouteMfcStats as Default>⟧.is_default x → x ≡ record { packets = 0; bytes = 0; wrong_if = 0 } }
{}

/// What a layout can hold is written as bytes that are read as it. (Those of the other types stand
/// in the contracts of their `parse` and `emit`.)
pub fn law_layouts()
    ensures ip_protocol { (x : IpProtocol) → ip_protocol.Holds x → ip_protocol.decode (ip_protocol.encode x) ≡ x }
    ensures route_scope { (x : RouteScope) → route_scope.Holds x → route_scope.decode (route_scope.encode x) ≡ x }
    ensures route_type { (x : RouteType) → route_type.Holds x → route_type.decode (route_type.encode x) ≡ x }
    ensures route_preference { (x : RoutePreference) → route_preference.Holds x → route_preference.decode (route_preference.encode x) ≡ x }
    ensures ttl_propagation { (x : RouteMplsTtlPropagation) → ttl_propagation.Holds x → ttl_propagation.decode (ttl_propagation.encode x) ≡ x }
    ensures route_flags { (x : RouteFlags) → route_flags.Holds x → route_flags.decode (route_flags.encode x) ≡ x }
    ensures next_hop_flags { (x : RouteNextHopFlags) → next_hop_flags.Holds x → next_hop_flags.decode (next_hop_flags.encode x) ≡ x }
    ensures cache_info { (x : RouteCacheInfo) → route_cache_info.Holds x → route_cache_info.decode (route_cache_info.encode x) ≡ x }
    ensures mfc_stats { (x : RouteMfcStats) → route_mfc_stats.Holds x → route_mfc_stats.decode (route_mfc_stats.encode x) ≡ x }
{}

/// An address that its family can hold, and a gateway that can be read, are read again from their
/// bytes.
pub fn law_read_back()
    ensures address { (family : AddressFamily) (a : Address) → (route_address family).Holds a → (route_address family).Reads ((route_address family).encode a) a }
    ensures via { (v : Via) → via_value.Holds v → via_value.Reads (via_value.encode v) v }
{}
