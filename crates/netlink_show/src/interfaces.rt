//! The names of interfaces, as link messages tell them.

ghost use Rattle.std.specs.{
  Prelude.{◌≡◌, ℕ, None, Some, OnOk, OnErr, option_map, string_bytes},
  BTreeMap.{IsUnchanged, Updates},
  Ordering.{nat_cmp},
};
ghost use Rattle.netlink_show.specs.Interfaces.{told, is_known_down, is_up, Learns, LearnsGone, LearnsName, LearnsNew, Names, TellsName};

use crate::message::Shown;
use netlink_packet_core::NLM_F_REQUEST;
use netlink_packet_route::framing::{NlaBuffer, NlasIterator, Value};
use netlink_packet_route::link::LinkMessageBuffer;
use netlink_packet_route::{Action, MessageKind, MessageType, Nest, Subject};
use std::alloc::{AllocError, Global};
use std::collections::BTreeMap;

/// The name of a link (`IFLA_IFNAME` of `linux/if_link.h`).
const IFLA_IFNAME: u16 = 3;

/// The flag of a link that is up (`IFF_UP` of `linux/if.h`).
const IFF_UP: u32 = 0x1;

/// The family of a message on a link itself (`AF_UNSPEC` of `linux/socket.h`).
const AF_UNSPEC: u8 = 0;

/// An interface.
#[derive(Drop)]
pub struct Interface {
    /// Its name.
    pub name: String,
    /// Whether it is up.
    pub is_up: bool,
}

/// The interfaces that were told of, by their numbers.
#[derive(Drop)]
pub struct Interfaces {
    known: BTreeMap<u32, Interface>,
}

impl Interfaces {
    /// None.
    pub fn new(alloc: Global) -> Interfaces
        ensures { (index : ℕ) → told result index ≡ None }
    {
        Interfaces {
            known: BTreeMap::new(alloc),
        }
    }

    /// The name of the interface of this number, if it was told.
    pub fn name_of(&self, index: u32) -> Option<&str>
        ensures { option_map (λ name. name.now) result ≡ option_map (λ interface. string_bytes interface.name) (told self.now index) }
    {
        let interface = self.known.get(&index)?;
        Some(interface.name.as_str())
    }

    /// Whether the interface of this number is known not to be up.
    pub fn is_down(&self, index: u32) -> bool
        ensures { result ≡ is_known_down (told self.now index) }
    {
        match self.known.get(&index) {
            Some(interface) => !interface.is_up,
            None => false,
        }
    }

    /// Takes notice of the interface of this number.
    ///
    /// # Errors
    /// `AllocError` where memory is refused; what was told before stands then.
    pub fn learn(&mut self, index: u32, interface: Interface) -> Result<(), AllocError>
        ensures ok { OnOk result (Updates nat_cmp self.old.known self.new.known index (Some interface)) }
        ensures refused { OnErr result (IsUnchanged self.old.known self.new.known) }
    {
        self.known.insert(index, interface)?;
        Ok(())
    }

    /// Takes notice that there is no interface of this number any more.
    pub fn forget(&mut self, index: u32)
        ensures { Updates nat_cmp self.old.known self.new.known index None }
    {
        self.known.remove(&index);
    }

    /// Takes notice of what a message of the kernel tells of interfaces. A request tells nothing.
    ///
    /// # Errors
    /// `AllocError` where memory is refused; what was told before stands then.
    pub fn note(&mut self, alloc: Global, message: Shown<'_>) -> Result<(), AllocError>
        ensures ok { OnOk result (Learns self.old message.entry.says message.entry.flags message.entry.payload.now self.new) }
        ensures refused { OnErr result (IsUnchanged self.old.known self.new.known) }
    {
        if message.flags & NLM_F_REQUEST != 0 {
            return Ok(());
        }
        match message.says {
            MessageType::Of(Subject::Link, Action::New) => self.note_new(alloc, message.payload),
            MessageType::Of(Subject::Link, Action::Del) => {
                self.note_gone(message.payload);
                Ok(())
            }
            _ => Ok(()),
        }
    }

    /// A link that is there. Nothing is learned of one without a name, or without a number.
    fn note_new(&mut self, alloc: Global, bytes: &[u8]) -> Result<(), AllocError>
        ensures ok { OnOk result (LearnsNew self.old bytes.now self.new) }
        ensures refused { OnErr result (IsUnchanged self.old.known self.new.known) }
    {
        let Ok(header) = LinkMessageBuffer::parse(bytes) else {
            return Ok(());
        };
        let Ok((nest, attributes)) = Nest::begin(MessageKind::Link, bytes) else {
            return Ok(());
        };
        match first_name(nest, attributes) {
            Some(name) if header.link_index != 0 => self.note_name(alloc, &header, name),
            _ => Ok(()),
        }
    }

    /// The name of a link that is there, and whether it is up.
    fn note_name(
        &mut self,
        alloc: Global,
        header: &LinkMessageBuffer,
        name: &str,
    ) -> Result<(), AllocError>
        ensures ok { OnOk result (LearnsName self.old header.now.link_index name.now (is_up header.now) self.new) }
        ensures refused { OnErr result (IsUnchanged self.old.known self.new.known) }
    {
        let interface = Interface {
            name: String::from_str(alloc, name)?,
            is_up: header.flags & IFF_UP == IFF_UP,
        };
        self.learn(header.link_index, interface)
    }

    /// A link that is gone. Under a family it has left that alone, as a port its bridge.
    fn note_gone(&mut self, bytes: &[u8])
        ensures { LearnsGone self.old bytes.now self.new }
    {
        match LinkMessageBuffer::parse(bytes) {
            Ok(header) if header.interface_family == AF_UNSPEC => self.forget(header.link_index),
            _ => {}
        }
    }
}

/// The name that the attributes of a link message tell.
fn first_name(nest: Nest, attributes: &[u8]) -> Option<&str>
    ensures { TellsName nest attributes.now (option_map (λ name. name.now) result) }
{
    let mut walk = NlasIterator::new(attributes);
    'attributes: loop {
        let Some(Ok(item)) = walk.next() else {
            return None;
        };
        if item.kind() == IFLA_IFNAME {
            return name_of(nest, &item);
        }
    }
}

/// The name that the value of this attribute is.
fn name_of<'a>(nest: Nest, item: &NlaBuffer<'a>) -> Option<&'a str>
    ensures { Names nest item.now (option_map (λ name. name.now) result) }
{
    match nest.value(item) {
        Ok((_, Value::Name(name))) => Some(name),
        _ => None,
    }
}
