//! How the value of a route attribute is read, by its number and its context.

ghost use Rattle.std.specs.Prelude.{true, false, ◌≡◌, ◌≢◌, [], ◌∷◌, ◌++◌, length, IfOk, IfErr, IsOk};
ghost use Rattle.{
  npr_base.specs.{
    Counts.{AddsAtMost},
    Framing.{number_of},
    Looks.{Answered},
    Family.{list_looking},
    Refusal.{at_number},
    Table.{RowReads, RowWrong},
    declared.refusal.DecodeError.TheVariants.{OutOfMemory},
  },
  npr_route_values.specs.{
    RouteAddress.{form_of, address_of, route_address},
    RouteVia.{via_of, via_value},
    declared.{address.RouteAddress.{RouteAddress}, via.RouteVia.{RouteVia}},
  },
  npr_encapsulation.specs.Encapsulation.{encapsulation},
  npr_route.specs.{
    Attribute.{flat, typed},
    AttributeLooks.{AttributeLooks},
    AttributeView.{meaning_of},
    AttributeFamily.{attributes},
    declared.attribute.RouteAttribute.{RouteAttribute},
    FlatFamily.{attributes as flat_attributes},
    Metric.{attributes as metrics},
    FlatAttribute.{Meaning as Flat, is_multicast, metrics_row, new_destination_row, encap_row, expires_row},
  },
};

use crate::attribute::{
    Context, RTA_ENCAP, RTA_EXPIRES, RTA_METRICS, RTA_MULTIPATH, RTA_NEWDST, RTA_VIA,
    RouteAttribute,
};
use crate::route_rows;
use npr_base::{
    AddressFamily, At, AttributeSet, DecodeError, DefaultNla, Form, Ipv6Addr, Looks, NlaBuffer,
    Parseable, borrow_octets, form_row, parse_list, read_ipv4, read_u32, read_u64, read_value,
};
use npr_encapsulation::RouteLwEnCapType;
use npr_route_values::{
    RouteAddress, RouteCacheInfo, RouteMfcStats, RouteMplsTtlPropagation, RoutePreference,
    RouteRealm, RouteType, RouteVia, read_labels,
};
use std::alloc::Global;
use std::mem;

const FAMILY: AttributeSet = AttributeSet::Route;

/// Puts a value into a place that holds a blank, which has nothing to free.
fn put(place: &mut RouteAttribute, value: RouteAttribute)
    requires { place.old ≡ RouteAttribute.Uid 0 }
    ensures { place.new ≡ value }
{
    mem::forget(mem::replace(place, value));
}

/// Puts the variant that holds an address of this family. Each form is put by itself: where forms
/// meet in one value, it is moved by pieces that wait for each other.
#[inline(always)]
fn put_address<V: FnOnce(RouteAddress) -> RouteAttribute>(
    place: &mut RouteAttribute,
    alloc: Global,
    family: AddressFamily,
    item: &NlaBuffer<'_>,
    variant: V,
) -> Result<(), DecodeError>
    requires blank { place.old ≡ RouteAttribute.Uid 0 }
    requires variant { V.IsAlwaysCallable variant }
    ensures ok { IfOk result (λ _. (address : RouteAddress) × (route_address family).Reads (item.now).value (address_of address) × V.post variant address place.new) }
    ensures refused { IfErr result (λ e. e ≢ OutOfMemory → (route_address family).Wrong (at_number AttributeSet.Route (number_of (item.now).kind)) (item.now).value e) }
{
    let value = item.value();
    let at = FAMILY.at(item.kind());
    if matches!(family, AddressFamily::Inet) {
        put(place, variant(RouteAddress::Inet(read_ipv4(value, at)?)));
    } else if matches!(family, AddressFamily::Inet6) {
        let octets = borrow_octets(value, at)?;
        put(place, variant(RouteAddress::Inet6(Ipv6Addr::from(*octets))));
    } else {
        put(
            place,
            variant(RouteAddress::read(alloc, family, value, at)?),
        );
    }
    Ok(())
}

/// Puts the metrics of number 8. It and those below that are never inlined are functions of their
/// own, for what a function keeps on the stack is cleared at its entry, for each attribute.
#[inline(never)]
fn put_metrics(
    place: &mut RouteAttribute,
    alloc: Global,
    value: &[u8],
    looks: &mut Looks,
) -> Result<(), DecodeError>
    requires { place.old ≡ RouteAttribute.Uid 0 }
    ensures ok { IfOk result (λ _. (m : Flat) × RowReads metrics_row value.now m × (meaning_of place.new ≡ flat m)) }
    ensures refused { IfErr result (λ e. e ≢ OutOfMemory → RowWrong metrics_row value.now e) }
    ensures exact { Answered result → (list_looking metrics).Takes value.now looks.old looks.new }
    ensures bounded { AddsAtMost looks.old looks.new (length value.now) }
{
    let metrics = parse_list(alloc, (), value, looks)?;
    put(place, RouteAttribute::Metrics(metrics));
    Ok(())
}

/// Puts the members of number 22, read under this type.
#[inline(never)]
fn put_encapsulation(
    place: &mut RouteAttribute,
    alloc: Global,
    encap_type: RouteLwEnCapType,
    value: &[u8],
    looks: &mut Looks,
) -> Result<(), DecodeError>
    requires { place.old ≡ RouteAttribute.Uid 0 }
    ensures ok { IfOk result (λ _. (m : Flat) × RowReads (encap_row (encapsulation encap_type)) value.now m × (meaning_of place.new ≡ flat m)) }
    ensures refused { IfErr result (λ e. e ≢ OutOfMemory → RowWrong (encap_row (encapsulation encap_type)) value.now e) }
    ensures exact { Answered result → (list_looking (encapsulation encap_type)).Takes value.now looks.old looks.new }
    ensures bounded { AddsAtMost looks.old looks.new (length value.now) }
{
    let members = parse_list(alloc, encap_type, value, looks)?;
    put(place, RouteAttribute::Encap(members));
    Ok(())
}

/// Puts the gateway of number 18.
#[inline(never)]
fn put_via(place: &mut RouteAttribute, alloc: Global, value: &[u8]) -> Result<(), DecodeError>
    requires { place.old ≡ RouteAttribute.Uid 0 }
    ensures ok { IfOk result (λ _. (via : RouteVia) × (place.new ≡ RouteAttribute.Via via) × via_value.Reads value.now (via_of via)) }
    ensures refused { IfErr result (λ e. e ≢ OutOfMemory → via_value.Wrong (at_number AttributeSet.Route 18) value.now e) }
{
    let via = RouteVia::read(alloc, value, FAMILY.at(RTA_VIA))?;
    put(place, RouteAttribute::Via(via));
    Ok(())
}

/// Puts number 19: labels for family mpls, else an address.
#[inline(never)]
fn put_new_destination(
    place: &mut RouteAttribute,
    alloc: Global,
    family: AddressFamily,
    value: &[u8],
) -> Result<(), DecodeError>
    requires { place.old ≡ RouteAttribute.Uid 0 }
    ensures ok { IfOk result (λ _. (m : Flat) × RowReads (new_destination_row (form_of family)) value.now m × (meaning_of place.new ≡ flat m)) }
    ensures refused { IfErr result (λ e. e ≢ OutOfMemory → RowWrong (new_destination_row (form_of family)) value.now e) }
{
    match family {
        AddressFamily::Mpls => {
            let labels = read_labels(alloc, value)?;
            put(place, RouteAttribute::NewDestination(labels));
        }
        _ => {
            let address = RouteAddress::read(alloc, family, value, FAMILY.at(RTA_NEWDST))?;
            put(place, RouteAttribute::NewDestinationAddress(address));
        }
    }
    Ok(())
}

/// Puts number 23: eight bytes of a multicast route, else four.
#[inline(always)]
fn put_expires(place: &mut RouteAttribute, kind: RouteType, value: &[u8]) -> Result<(), DecodeError>
    requires { place.old ≡ RouteAttribute.Uid 0 }
    ensures ok { IfOk result (λ _. (m : Flat) × RowReads (expires_row (is_multicast kind)) value.now m × (meaning_of place.new ≡ flat m)) }
    ensures refused { IfErr result (λ e. RowWrong (expires_row (is_multicast kind)) value.now e) }
{
    let at = FAMILY.at(RTA_EXPIRES);
    match kind {
        RouteType::Multicast => put(
            place,
            RouteAttribute::MulticastExpires(read_u64(value, at)?),
        ),
        _ => put(place, RouteAttribute::Expires(read_u32(value, at)?)),
    }
    Ok(())
}

/// The arms of the rows, behind those that are given. Each puts its variant into the place by itself,
/// and a refusal goes out at once: an answer that arms share is kept in memory and asked for again.
macro_rules! put_rows {
    (($place:expr, $alloc:expr, $family:expr, $item:expr; $($more:tt)*) RouteAttribute of $at:ident { $($number:tt $variant:ident($($codec:tt)+);)* }) => {{
        let value = $item.value();
        match $item.kind() {
            $($more)*
            $($number => put_row!([$place, $variant, $alloc, $family, $item, value] $number $($codec)+),)*
            _ => put($place, RouteAttribute::Other(DefaultNla::parse($alloc, $item)?)),
        }
        Ok(())
    }};
}

macro_rules! put_row {
    ([$place:expr, $variant:ident, $alloc:expr, $family:expr, $item:expr, $value:expr] $number:tt RouteAddress value) => {
        return put_address($place, $alloc, $family, $item, RouteAttribute::$variant)
    };
    ([$place:expr, $variant:ident, $alloc:expr, $family:expr, $item:expr, $value:expr] $number:tt $of:ident as $codec:ident) => {
        put($place, RouteAttribute::$variant($of::from(read_value!([$alloc, $value, FAMILY.at($number)] $codec)?)))
    };
    ([$place:expr, $variant:ident, $alloc:expr, $family:expr, $item:expr, $value:expr] $number:tt $($codec:tt)+) => {
        put($place, RouteAttribute::$variant(read_value!([$alloc, $value, FAMILY.at($number)] $($codec)+)?))
    };
}

/// Puts into a place that holds a blank what an attribute is that holds no next hops: one of another
/// number, or an empty list of them. Encapsulations are read under the type beside the context.
#[inline(always)]
pub(crate) fn read_flat(
    place: &mut RouteAttribute,
    alloc: Global,
    context: Context,
    encap_type: RouteLwEnCapType,
    item: &NlaBuffer<'_>,
    looks: &mut Looks,
) -> Result<(), DecodeError>
    requires blank { place.old ≡ RouteAttribute.Uid 0 }
    requires hops { number_of (item.now).kind ≡ 9 → (item.now).value ≡ [] }
    ensures ok { IfOk result (λ _. (attributes (typed context encap_type)).Reads item.now (meaning_of place.new)) }
    ensures refused { IfErr result (λ e. e ≢ OutOfMemory → (flat_attributes (typed context encap_type)).Faulty item.now e) }
    ensures nine { number_of (item.now).kind ≡ 9 → IsOk result }
    ensures exact { Answered result → (flat_attributes (typed context encap_type)).looks.Takes item.now looks.old looks.new }
    ensures bounded { AddsAtMost looks.old looks.new (length (item.now).value) }
{
    let (family, kind, _) = context;
    route_rows!(put_rows(place, alloc, family, item;
        RTA_METRICS => return put_metrics(place, alloc, item.value(), looks),
        RTA_MULTIPATH => put(place, RouteAttribute::MultiPath(Vec::new(alloc))),
        RTA_VIA => return put_via(place, alloc, item.value()),
        RTA_NEWDST => return put_new_destination(place, alloc, family, item.value()),
        RTA_ENCAP => return put_encapsulation(place, alloc, encap_type, item.value(), looks),
        RTA_EXPIRES => return put_expires(place, kind, item.value()),
    ))
}

/// `read_flat` into a new place behind the attributes of a list.
#[inline(always)]
pub(crate) fn push_flat(
    list: &mut Vec<RouteAttribute>,
    alloc: Global,
    context: Context,
    encap_type: RouteLwEnCapType,
    item: &NlaBuffer<'_>,
    looks: &mut Looks,
) -> Result<(), DecodeError>
    requires { number_of (item.now).kind ≡ 9 → (item.now).value ≡ [] }
    ensures ok { IfOk result (λ _. (a : RouteAttribute) × (list.new.items ≡ list.old.items ++ a ∷ []) × (attributes (typed context encap_type)).Reads item.now (meaning_of a)) }
    ensures refused { IfErr result (λ e. e ≢ OutOfMemory → (number_of (item.now).kind ≢ 9) × (flat_attributes (typed context encap_type)).Faulty item.now e) }
    ensures read { IfOk result (λ _. AttributeLooks (typed context encap_type) item.now true looks.old looks.new) }
    ensures faulty { IfErr result (λ e. e ≢ OutOfMemory → AttributeLooks (typed context encap_type) item.now false looks.old looks.new) }
    ensures bounded { AddsAtMost looks.old looks.new (length (item.now).value) }
{
    list.push(RouteAttribute::Uid(0))?;
    let last = list.len() - 1;
    read_flat(&mut list[last], alloc, context, encap_type, item, looks)
}

/// The arms of the rows, behind those that are given.
macro_rules! route_forms {
    (($number:expr, $address:expr; $($more:tt)*) RouteAttribute of $at:ident { $($row:tt $variant:ident($($codec:tt)+);)* }) => {
        match $number {
            $($more)*
            $($row => route_form!([$address] $($codec)+),)*
            _ => Form::Raw,
        }
    };
}

macro_rules! route_form {
    ([$address:expr] RouteAddress value) => {
        $address
    };
    ([$address:expr] $($codec:tt)+) => {
        form_row!($($codec)+)
    };
}

/// By a number: the place that refusals tell, and how the value is read without memory. Next hops,
/// lists and labels have readers of their own.
pub(crate) fn form_at(context: Context, number: u16) -> (At, Form)
    ensures { result ≡ (attributes context).seeing.form_at number }
{
    let address = RouteAddress::form(context.0);
    let form = route_rows!(route_forms(number, address;
        RTA_METRICS => Form::List(AttributeSet::Metric, 0),
        RTA_MULTIPATH => Form::Inside,
        RTA_VIA => Form::Inside,
        RTA_NEWDST => new_destination_form(context.0),
        RTA_ENCAP => Form::List(AttributeSet::Encap, 0),
        RTA_EXPIRES => expires_form(context.1),
    ));
    (FAMILY.at(number), form)
}

/// That of number 19: labels for family mpls, else an address.
fn new_destination_form(family: AddressFamily) -> Form
    ensures { result ≡ (new_destination_row (form_of family)).codec.showing.form }
{
    match family {
        AddressFamily::Mpls => Form::Raw,
        _ => RouteAddress::form(family),
    }
}

/// That of number 23: eight bytes of a multicast route, else four.
fn expires_form(kind: RouteType) -> Form
    ensures { result ≡ (expires_row (is_multicast kind)).codec.showing.form }
{
    if matches!(kind, RouteType::Multicast) {
        Form::Little64
    } else {
        Form::Little32
    }
}
