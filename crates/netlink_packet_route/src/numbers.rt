//! The numbers of values, for a crate that names this one alone: the conversions `u8::from` and
//! their like are found only by a crate that names the one which has them.

ghost use Rattle.std.specs.Prelude.{◌≡◌};
ghost use Rattle.{
  npr_address.specs.{AddressProtocol.{protocols as address_protocols}, AddressScope.{scopes as address_scopes}},
  npr_base.specs.AddressFamily.{families},
  npr_rule.specs.Action.{actions as rule_actions},
  npr_route_values.specs.{
    IpProtocol.{ip_protocols},
    Mpls.{label_number},
    Realm.{realms},
    RoutePreference.{route_preferences},
    RouteProtocol.{route_protocols},
    RouteScope.{route_scopes},
    RouteType.{route_types},
    TtlPropagation.{ttl_propagations},
  },
  npr_srh.specs.{
    Ioam6Mode.{ioam6_modes},
    Seg6LocalAction.{actions as seg6_local_actions},
    Seg6Mode.{seg6_modes},
  },
  npr_tc_actions.specs.{ActionType.{action_types}, MirrorActionType.{mirror_action_types}},
  npr_tc_values.specs.Handle.{handles},
  npr_encapsulation.specs.EncapType.{encap_types},
};

use npr_address::{AddressProtocol, AddressScope};
use npr_base::AddressFamily;
use npr_encapsulation::RouteLwEnCapType;
use npr_route_values::{
    IpProtocol, MplsLabel, RouteMplsTtlPropagation, RoutePreference, RouteProtocol, RouteRealm,
    RouteScope, RouteType,
};
use npr_rule::RuleAction;
use npr_srh::{Ioam6Mode, Seg6LocalAction, Seg6Mode};
use npr_tc_actions::{TcActionType, TcMirrorActionType};
use npr_tc_values::TcHandle;

/// The number of an address family (`AF_*`).
pub fn address_family(value: AddressFamily) -> u8
    ensures { result ≡ families.number value }
{
    u8::from(value)
}

/// The number of the protocol of an address (`IFAPROT_*`).
pub fn address_protocol(value: AddressProtocol) -> u8
    ensures { result ≡ address_protocols.number value }
{
    u8::from(value)
}

/// The number of the scope of an address (`RT_SCOPE_*`).
pub fn address_scope(value: AddressScope) -> u8
    ensures { result ≡ address_scopes.number value }
{
    u8::from(value)
}

/// The number of a type of encapsulation (`LWTUNNEL_ENCAP_*`).
pub fn encap_type(value: RouteLwEnCapType) -> u16
    ensures { result ≡ encap_types.number value }
{
    u16::from(value)
}

/// The number of a mode of an IOAM6 tunnel (`IOAM6_IPTUNNEL_MODE_*`).
pub fn ioam6_mode(value: Ioam6Mode) -> u8
    ensures { result ≡ ioam6_modes.number value }
{
    u8::from(value)
}

/// The number of a protocol over IP (`IPPROTO_*`).
pub fn ip_protocol(value: IpProtocol) -> i32
    ensures { result ≡ ip_protocols.number value }
{
    i32::from(value)
}

/// The number of an MPLS label, of 32 bits (RFC 3032).
pub fn mpls_label(value: MplsLabel) -> u32
    ensures { result ≡ label_number value }
{
    u32::from(value)
}

/// The number of the preference of a router (RFC 4191).
pub fn route_preference(value: RoutePreference) -> u8
    ensures { result ≡ route_preferences.number value }
{
    u8::from(value)
}

/// The number of the protocol of a route (`RTPROT_*`).
pub fn route_protocol(value: RouteProtocol) -> u8
    ensures { result ≡ route_protocols.number value }
{
    u8::from(value)
}

/// The number of a realm, of two halves.
pub fn route_realm(value: RouteRealm) -> u32
    ensures { result ≡ realms.number value }
{
    u32::from(value)
}

/// The number of the scope of a route (`RT_SCOPE_*`).
pub fn route_scope(value: RouteScope) -> u8
    ensures { result ≡ route_scopes.number value }
{
    u8::from(value)
}

/// The number of the type of a route (`RTN_*`).
pub fn route_type(value: RouteType) -> u8
    ensures { result ≡ route_types.number value }
{
    u8::from(value)
}

/// The number of the action of a rule (`FR_ACT_*`).
pub fn rule_action(value: RuleAction) -> u8
    ensures { result ≡ rule_actions.number value }
{
    u8::from(value)
}

/// The number of an action of a SEG6 local tunnel (`SEG6_LOCAL_ACTION_*`).
pub fn seg6_local_action(value: Seg6LocalAction) -> u32
    ensures { result ≡ seg6_local_actions.number value }
{
    u32::from(value)
}

/// The number of a mode of a SEG6 tunnel (`SEG6_IPTUN_MODE_*`).
pub fn seg6_mode(value: Seg6Mode) -> u32
    ensures { result ≡ seg6_modes.number value }
{
    u32::from(value)
}

/// The number of what becomes of a packet behind an action of traffic control (`TC_ACT_*`).
pub fn tc_action_type(value: TcActionType) -> i32
    ensures { result ≡ action_types.number value }
{
    i32::from(value)
}

/// The number of a handle of a queueing discipline or a class, of two halves.
pub fn tc_handle(value: TcHandle) -> u32
    ensures { result ≡ handles.number value }
{
    u32::from(value)
}

/// The number of where an action of traffic control sends packets (`TCA_*_REDIR`, `TCA_*_MIRROR`).
pub fn tc_mirror_action_type(value: TcMirrorActionType) -> i32
    ensures { result ≡ mirror_action_types.number value }
{
    i32::from(value)
}

/// The number of whether a TTL is propagated (`RTA_TTL_PROPAGATE`).
pub fn ttl_propagation(value: RouteMplsTtlPropagation) -> u8
    ensures { result ≡ ttl_propagations.number value }
{
    u8::from(value)
}
