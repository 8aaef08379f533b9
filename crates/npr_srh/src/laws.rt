//! The laws of this crate. Each function does nothing, and its contract is the law.

ghost use Rattle.std.specs.Prelude.{◌≡◌, ℕ, false, true};
ghost use Rattle.{
  npr_base.specs.{Equality.{IsEquality, IsEqualityOf}, Rows.{agrees, numbered}},
  npr_srh.specs.{
    Ioam6Mode.{ioam6_modes},
    Seg6.{seg6_of},
    Seg6LocalAction.{all_action_rows, actions},
    Seg6Mode.{seg6_modes},
    Seg6Tunnel.{family as seg6},
    Seg6Local.{local_of},
    Seg6LocalTunnel.{family as local},
    Rpl.{rpl_of},
    RplTunnel.{family as rpl},
    Ioam6Tunnel.{family as ioam6},
  },
};

use crate::ioam6::{Ioam6Mode, Ioam6TraceHdr, RouteIoam6Tunnel};
use crate::rpl::{RouteRplIpTunnel, RplSrh};
use crate::seg6::RouteSeg6IpTunnel;
use crate::seg6_header::{Seg6Header, Seg6MessageBuffer};
use crate::seg6_mode::Seg6Mode;
use crate::seg6local::RouteSeg6LocalTunnel;
use crate::seg6local_action::Seg6LocalAction;
use crate::seg6local_srh::Seg6LocalSrh;

/// What a number reads as is written as that number, and each row of the actions as the row's number.
pub fn law_numbers()
    ensures seg6_mode { (d : ℕ) → seg6_modes.number (seg6_modes.of d) ≡ d }
    ensures action { (d : ℕ) → actions.number (actions.of d) ≡ d }
    ensures action_rows { agrees actions.number (numbered all_action_rows) ≡ true }
    ensures ioam6_mode { (d : ℕ) → ioam6_modes.number (ioam6_modes.of d) ≡ d }
{}

/// `==` answers whether two values are equal, or mean the same where they hold a vector.
pub fn law_equality()
    ensures seg6_mode { IsEquality ⟦<Seg6Mode as PartialEq>⟧.eq }
    ensures message_buffer { IsEquality ⟦<Seg6MessageBuffer as PartialEq>⟧.eq }
    ensures action { IsEquality ⟦<Seg6LocalAction as PartialEq>⟧.eq }
    ensures ioam6_mode { IsEquality ⟦<Ioam6Mode as PartialEq>⟧.eq }
    ensures trace { IsEquality ⟦<Ioam6TraceHdr as PartialEq>⟧.eq }
    ensures seg6_header { IsEqualityOf seg6_of ⟦<Seg6Header as PartialEq>⟧.eq }
    ensures local_header { IsEqualityOf local_of ⟦<Seg6LocalSrh as PartialEq>⟧.eq }
    ensures rpl_header { IsEqualityOf rpl_of ⟦<RplSrh as PartialEq>⟧.eq }
    ensures seg6 { IsEqualityOf seg6.meaning ⟦<RouteSeg6IpTunnel as PartialEq>⟧.eq }
    ensures local { IsEqualityOf local.meaning ⟦<RouteSeg6LocalTunnel as PartialEq>⟧.eq }
    ensures rpl { IsEqualityOf rpl.meaning ⟦<RouteRplIpTunnel as PartialEq>⟧.eq }
    ensures ioam6 { IsEqualityOf ioam6.meaning ⟦<RouteIoam6Tunnel as PartialEq>⟧.eq }
{}

/// Which value is the default.
pub fn law_default()
    ensures seg6_mode { (x : Seg6Mode) → ⟦<Seg6Mode as Default>⟧.is_default x → x ≡ Seg6Mode.Inline }
    ensures action { (x : Seg6LocalAction) → ⟦<Seg6LocalAction as Default>⟧.is_default x → x ≡ Seg6LocalAction.Unspec }
    ensures ioam6_mode { (x : Ioam6Mode) → ⟦<Ioam6Mode as Default>⟧.is_default x → x ≡ Ioam6Mode.Inline }
    ensures trace { (x : Ioam6TraceHdr) → ⟦<Ioam6TraceHdr as Default>⟧.is_default x → x ≡ record { namespace_id = 0; nodelen = 0; overflow = false; remlen = 0; trace_type = 0 } }
    ensures local { (x : RouteSeg6LocalTunnel) → ⟦<RouteSeg6LocalTunnel as Default>⟧.is_default x → x ≡ RouteSeg6LocalTunnel.Unspecified }
    ensures rpl { (x : RouteRplIpTunnel) → ⟦<RouteRplIpTunnel as Default>⟧.is_default x → x ≡ RouteRplIpTunnel.Unspecified }
    ensures ioam6 { (x : RouteIoam6Tunnel) → ⟦<RouteIoam6Tunnel as Default>⟧.is_default x → x ≡ RouteIoam6Tunnel.Unspecified }
{}
