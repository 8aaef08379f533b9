//! Next hops of a route by several paths: `struct rtnexthop` of `linux/rtnetlink.h`. They hold
//! attributes, which may be next hops again.

ghost use Rattle.std.specs.Prelude.{◌≡◌, ◌<◌, length, IfOk, OnErr};
ghost use Rattle.npr_route.specs.{Attribute.{default_hop}, AttributeView.{hop_of, next_hop_bytes, next_hop_unfit}};

use crate::attribute::RouteAttribute;
use crate::descent::{check_hop, clone_hop, write_hop};
use bitflags::Flags;
use npr_base::{EmitError, Emitable};
use npr_route_values::RouteNextHopFlags;
use std::alloc::{AllocError, Global};

/// A next hop of a route by several paths.
#[cycle(route)]
#[derive(Debug, Drop, PartialEq, Eq)]
pub struct RouteNextHop {
    /// The flags.
    pub flags: RouteNextHopFlags,
    /// Its weight less one.
    pub hops: u8,
    /// The index of its interface.
    pub interface_index: u32,
    /// The attributes, in their order.
    pub attributes: Vec<RouteAttribute>,
}

impl RouteNextHop {
    /// A next hop with each field at its default, and no attributes. It takes no memory.
    pub fn new(alloc: Global) -> Self
        ensures { hop_of result ≡ default_hop }
    {
        RouteNextHop {
            flags: RouteNextHopFlags::default(),
            hops: 0,
            interface_index: 0,
            attributes: Vec::new(alloc),
        }
    }

    /// An equal next hop.
    ///
    /// # Errors
    /// `AllocError` where memory is refused; without attributes none is taken.
    pub fn try_clone(&self, alloc: Global) -> Result<Self, AllocError>
        ensures ok { IfOk result (λ h. hop_of h ≡ hop_of self.now) }
        ensures memory { OnErr result (0 < length self.now.attributes.items) }
    {
        clone_hop(alloc, self)
    }
}

impl Emitable for RouteNextHop {
    ghost bytes = { next_hop_bytes };

    ghost unfit = { next_hop_unfit };

    fn check(&self) -> Result<usize, EmitError> {
        check_hop(self)
    }

    fn emit(&self, out: &mut [u8]) {
        write_hop(self, out);
    }
}
