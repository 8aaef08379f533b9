//! The laws of messages of name spaces and of settings, over their definitions alone. Each function does
//! nothing, and its contract is the law.

ghost use Rattle.std.specs.Prelude.{◌≡◌};
ghost use Rattle.{
  npr_base.specs.{Equality.{IsEquality, IsEqualityOf}, Message.{view}},
  npr_namespace.specs.{
    NetconfAttribute.{family as netconf_attribute_family},
    NetconfHeader.{default_header as default_netconf_header},
    NetconfMessage.{netconfs},
    NsidAttribute.{family as nsid_attribute_family},
    NsidHeader.{default_header as default_nsid_header},
    NsidMessage.{nsids},
  },
};

use crate::netconf::{NetconfHeader, NetconfMessage, NetconfMessageBuffer};
use crate::netconf_attribute::NetconfAttribute;
use crate::nsid::{NsidHeader, NsidMessage, NsidMessageBuffer};
use crate::nsid_attribute::NsidAttribute;

/// Which value is the default: each number is 0.
pub fn law_default()
    ensures nsid_header { (x : NsidHeader) → ⟦<NsidHeader as Default>⟧.is_default x → x ≡ default_nsid_header }
    ensures netconf_header { (x : NetconfHeader) → ⟦<NetconfHeader as Default>⟧.is_default x → x ≡ default_netconf_header }
{}

/// `==` of headers, layouts and structures answers whether two values are equal.
pub fn law_equality()
    ensures nsid_header { IsEquality ⟦<NsidHeader as PartialEq>⟧.eq }
    ensures nsid_buffer { IsEquality ⟦<NsidMessageBuffer as PartialEq>⟧.eq }
    ensures netconf_header { IsEquality ⟦<NetconfHeader as PartialEq>⟧.eq }
    ensures netconf_buffer { IsEquality ⟦<NetconfMessageBuffer as PartialEq>⟧.eq }
{}

/// `==` of attributes and messages answers whether two values mean the same.
pub fn law_equality_of_meanings()
    ensures nsid_attribute { IsEqualityOf nsid_attribute_family.meaning ⟦<NsidAttribute as PartialEq>⟧.eq }
    ensures netconf_attribute { IsEqualityOf netconf_attribute_family.meaning ⟦<NetconfAttribute as PartialEq>⟧.eq }
    ensures nsid_message { IsEqualityOf (view nsids) ⟦<NsidMessage as PartialEq>⟧.eq }
    ensures netconf_message { IsEqualityOf (view netconfs) ⟦<NetconfMessage as PartialEq>⟧.eq }
{}
