//! What the numbers of attributes rest on, outside of their list.

ghost use Rattle.std.specs.Prelude.{◌≡◌};
ghost use Rattle.netlink_packet_route.specs.Nests.{Inner, context_for, encap_set, listed, within};

use crate::nests::Nest;
use npr_base::{AddressFamily, AttributeSet, Looks, governing};
use npr_encapsulation::RouteLwEnCapType;
use npr_link::{InfoForm, InfoPortForm, governing_forms};
use npr_route_values::RouteType;
use npr_tc_actions::{TcActionAttribute, TcActionForm};
use npr_tc_values::TcForm;

/// What the numbers of attributes rest on, outside of their list. Each set rests on some of it, and most
/// on nothing.
#[derive(Debug, Clone, Copy, PartialEq, Eq)]
pub struct Context {
    /// The family of the message's header.
    pub family: AddressFamily,
    /// The type of the route.
    pub route_type: RouteType,
    /// The type that governs an encapsulation.
    pub encap_type: RouteLwEnCapType,
    /// What governs the data of a link.
    pub link: InfoForm,
    /// What governs the data of a port.
    pub port: InfoPortForm,
    /// What governs a message of traffic control.
    pub tc: TcForm,
    /// What governs the options of an action of traffic control.
    pub tc_action: TcActionForm,
}

impl Context {
    /// That of a set which rests on nothing.
    pub const NONE: Context = Context {
        family: AddressFamily::Unspec,
        route_type: RouteType::Unspec,
        encap_type: RouteLwEnCapType::None,
        link: InfoForm::Kept,
        port: InfoPortForm::Kept,
        tc: TcForm::Kept,
        tc_action: TcActionForm::Kept,
    };

    /// What the attributes of this set rest on, and no more.
    pub fn for_set(self, set: AttributeSet) -> Context
        ensures { result ≡ context_for set self }
    {
        match set {
            AttributeSet::Route => Context {
                family: self.family,
                route_type: self.route_type,
                encap_type: self.encap_type,
                ..Context::NONE
            },
            AttributeSet::NextHop => Context {
                family: self.family,
                encap_type: self.encap_type,
                ..Context::NONE
            },
            AttributeSet::Neighbour | AttributeSet::Link => Context {
                family: self.family,
                ..Context::NONE
            },
            AttributeSet::Encap => Context {
                encap_type: self.encap_type,
                ..Context::NONE
            },
            AttributeSet::LinkInfo => Context {
                link: self.link,
                port: self.port,
                ..Context::NONE
            },
            AttributeSet::InfoIpTunnel => Context {
                link: self.link,
                ..Context::NONE
            },
            AttributeSet::Tc | AttributeSet::TcStats2 => Context {
                tc: self.tc,
                ..Context::NONE
            },
            AttributeSet::TcAction => Context {
                tc_action: self.tc_action,
                ..Context::NONE
            },
            _ => Context::NONE,
        }
    }

    /// What lists in the values of this set rest on: what an action counts is under no kind of the message.
    pub(crate) fn within(self, set: AttributeSet) -> Context
        ensures { result ≡ within set self }
    {
        match set {
            AttributeSet::TcAction => Context {
                tc: TcForm::Kept,
                ..self
            },
            _ => self,
        }
    }

    /// What names a list of this set in a value: what a driver says is under the kinds that it tells, and an
    /// action under its own.
    pub(crate) fn inner(self, set: AttributeSet, value: &[u8]) -> Nest
        ensures { Inner self set value.now result }
    {
        match set {
            AttributeSet::LinkInfo => {
                let (link, port) = governing_forms(value, &mut Looks::new());
                let context = Context {
                    link,
                    port,
                    ..Context::NONE
                };
                Nest { set, context }
            }
            AttributeSet::TcAction => {
                let context = Context {
                    tc_action: governing::<TcActionAttribute>(value, &mut Looks::new()),
                    ..Context::NONE
                };
                Nest { set, context }
            }
            _ => Nest::new(set, self),
        }
    }
}

/// What a set without a list of its own stands for in a value: what an encapsulation of its type holds.
pub(crate) fn listed(set: AttributeSet) -> AttributeSet
    ensures { result ≡ listed set }
{
    match set {
        AttributeSet::Value
        | AttributeSet::Mpls
        | AttributeSet::Ip
        | AttributeSet::Ip6
        | AttributeSet::Xfrm
        | AttributeSet::Geneve
        | AttributeSet::Seg6
        | AttributeSet::Seg6Local
        | AttributeSet::Rpl
        | AttributeSet::Ioam6 => AttributeSet::Encap,
        _ => set,
    }
}

/// The set of the members of an encapsulation of this type.
pub(crate) fn encap_set(encap_type: RouteLwEnCapType) -> AttributeSet
    ensures { result ≡ encap_set encap_type }
{
    match encap_type {
        RouteLwEnCapType::Mpls => AttributeSet::Mpls,
        RouteLwEnCapType::Ip => AttributeSet::Ip,
        RouteLwEnCapType::Ip6 => AttributeSet::Ip6,
        RouteLwEnCapType::Xfrm => AttributeSet::Xfrm,
        RouteLwEnCapType::Seg6 => AttributeSet::Seg6,
        RouteLwEnCapType::Seg6Local => AttributeSet::Seg6Local,
        RouteLwEnCapType::Rpl => AttributeSet::Rpl,
        RouteLwEnCapType::Ioam6 => AttributeSet::Ioam6,
        _ => AttributeSet::Value,
    }
}
