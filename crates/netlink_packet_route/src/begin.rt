//! The list behind a message's header, by its kind: the set that its numbers are of, and what they rest on there.

ghost use Rattle.std.specs.Prelude.{◌≡◌, ◌<◌, length, drop, IfOk, IfErr};
ghost use Rattle.{
  npr_base.specs.{Codec.{leading}, declared.refusal.DecodeError.TheVariants.{HeaderTooShort}},
  netlink_packet_route.specs.{MessageKind.{Begins, header_size}, Nests.{FromBytes}},
};

use crate::context::Context;
use crate::kind::MessageKind;
use crate::nests::Nest;
use npr_address::{AddressHeader, AddressLabelHeader, PrefixHeader};
use npr_base::{Attribute, AttributeSet, DecodeError, Header, Message};
use npr_link::LinkHeader;
use npr_namespace::{NetconfHeader, NsidHeader};
use npr_neighbour::{NeighbourHeader, NeighbourTableHeader};
use npr_nexthop::NextHopHeader;
use npr_route::RouteHeader;
use npr_rule::RuleHeader;
use npr_stats::StatsHeader;
use npr_tc::{TcActionMessageHeader, TcHeader};

/// What the attributes behind the header of a message rest on, and their bytes.
///
/// # Errors
/// `HeaderTooShort` where there is no whole header.
fn behind<H: Header>(
    bytes: &[u8],
) -> Result<(<H::Attribute as Attribute>::Context, &[u8]), DecodeError>
    ensures ok { IfOk result (λ s. (h : H) × (leading H.grammar.layout).Reads bytes.now h × (s.1.now ≡ drop H.grammar.layout.size bytes.now)
        × H.governs h s.1.now s.0) }
    ensures short { IfErr result (λ e. (length bytes.now < H.grammar.layout.size) × (e ≡ HeaderTooShort (length bytes.now) H.grammar.layout.size)) }
{
    let (_, values) = Message::<H, H::Attribute>::values(bytes)?;
    Ok((values.context(), values.rest()))
}

impl Nest {
    /// The list behind the header of a message of this kind: what names it, and its bytes.
    ///
    /// # Errors
    /// `HeaderTooShort` where there is no whole header.
    pub fn begin(kind: MessageKind, bytes: &[u8]) -> Result<(Nest, &[u8]), DecodeError>
        ensures ok { IfOk result (λ s. Begins kind bytes.now s.0 s.1.now) }
        ensures numbers { IfOk result (λ s. FromBytes s.0) }
        ensures short { IfErr result (λ e. (length bytes.now < header_size kind) × (e ≡ HeaderTooShort (length bytes.now) (header_size kind))) }
    {
        match kind {
            MessageKind::Address => {
                let (_, attributes) = behind::<AddressHeader>(bytes)?;
                let set = AttributeSet::Address;
                let context = Context::NONE;
                Ok((Nest { set, context }, attributes))
            }
            MessageKind::Rule => {
                let (_, attributes) = behind::<RuleHeader>(bytes)?;
                let set = AttributeSet::Rule;
                let context = Context::NONE;
                Ok((Nest { set, context }, attributes))
            }
            MessageKind::Route => {
                let (told, attributes) = behind::<RouteHeader>(bytes)?;
                let context = Context {
                    family: told.0,
                    route_type: told.1,
                    encap_type: told.2,
                    ..Context::NONE
                };
                let set = AttributeSet::Route;
                Ok((Nest { set, context }, attributes))
            }
            MessageKind::Neighbour => {
                let (family, attributes) = behind::<NeighbourHeader>(bytes)?;
                let context = Context {
                    family,
                    ..Context::NONE
                };
                let set = AttributeSet::Neighbour;
                Ok((Nest { set, context }, attributes))
            }
            MessageKind::Link => {
                let (family, attributes) = behind::<LinkHeader>(bytes)?;
                let context = Context {
                    family,
                    ..Context::NONE
                };
                let set = AttributeSet::Link;
                Ok((Nest { set, context }, attributes))
            }
            MessageKind::NextHop => {
                let (told, attributes) = behind::<NextHopHeader>(bytes)?;
                let context = Context {
                    family: told.0,
                    encap_type: told.1,
                    ..Context::NONE
                };
                let set = AttributeSet::NextHop;
                Ok((Nest { set, context }, attributes))
            }
            MessageKind::Nsid => {
                let (_, attributes) = behind::<NsidHeader>(bytes)?;
                let set = AttributeSet::Nsid;
                let context = Context::NONE;
                Ok((Nest { set, context }, attributes))
            }
            MessageKind::Netconf => {
                let (_, attributes) = behind::<NetconfHeader>(bytes)?;
                let set = AttributeSet::Netconf;
                let context = Context::NONE;
                Ok((Nest { set, context }, attributes))
            }
            MessageKind::AddressLabel => {
                let (_, attributes) = behind::<AddressLabelHeader>(bytes)?;
                let set = AttributeSet::AddressLabel;
                let context = Context::NONE;
                Ok((Nest { set, context }, attributes))
            }
            MessageKind::NeighbourTable => {
                let (_, attributes) = behind::<NeighbourTableHeader>(bytes)?;
                let set = AttributeSet::NeighbourTable;
                let context = Context::NONE;
                Ok((Nest { set, context }, attributes))
            }
            MessageKind::Prefix => {
                let (_, attributes) = behind::<PrefixHeader>(bytes)?;
                let set = AttributeSet::Prefix;
                let context = Context::NONE;
                Ok((Nest { set, context }, attributes))
            }
            MessageKind::Tc => {
                let (tc, attributes) = behind::<TcHeader>(bytes)?;
                let context = Context {
                    tc,
                    ..Context::NONE
                };
                let set = AttributeSet::Tc;
                Ok((Nest { set, context }, attributes))
            }
            MessageKind::TcAction => {
                let (_, attributes) = behind::<TcActionMessageHeader>(bytes)?;
                let set = AttributeSet::TcActionMessage;
                let context = Context::NONE;
                Ok((Nest { set, context }, attributes))
            }
            MessageKind::Stats => {
                let (_, attributes) = behind::<StatsHeader>(bytes)?;
                let set = AttributeSet::Stats;
                let context = Context::NONE;
                Ok((Nest { set, context }, attributes))
            }
        }
    }
}
