//! How the data of a flower filter without attributes inside are read: `TCA_FLOWER_*` of `linux/pkt_cls.h`.

ghost use Rattle.std.specs.Prelude.{◌≡◌, ◌≢◌, ◌≤◌, true, IfOk, IfErr};
ghost use Rattle.{
  npr_base.specs.{declared.refusal.DecodeError.TheVariants.{OutOfMemory}, Framing.{number_of}, RowReading.{reads_at, wrong_at}},
  npr_tc_filters.specs.Flower.{table, IsFlat, no_row},
};

use crate::flower_option::TcFilterFlowerOption;
use crate::flower_rows::{one_part, put_part, put_row, rows};
use crate::put_text::put_text;
use npr_base::{
    AttributeSet, DecodeError, DefaultNla, NlaBuffer, Place, Rowed, put_big, put_exactly,
};
use std::alloc::Global;

impl Rowed for TcFilterFlowerOption {
    ghost reads = { reads_at table };

    ghost wrong = { wrong_at table };
}

/// Puts an attribute that no row has the number of, as it stands.
///
/// # Errors
/// `OutOfMemory` where memory is refused.
fn put_rest<P: Place<TcFilterFlowerOption>>(
    place: &mut P,
    alloc: Global,
    item: &NlaBuffer<'_>,
) -> Result<(), DecodeError>
    requires ready { P.ready place.old }
    requires none { no_row (number_of (item.now).kind) ≡ true }
    ensures ok { IfOk result (λ _. (a : TcFilterFlowerOption) × P.puts place.old a place.new × reads_at table (number_of (item.now).kind) item.now a) }
    ensures refused { IfErr result (λ e. e ≡ OutOfMemory) }
{
    place.put(TcFilterFlowerOption::Other(DefaultNla::read(alloc, item)?));
    Ok(())
}

/// Puts an attribute of a number from 99 on. Asks that its number is not that of a list.
///
/// # Errors
/// `OutOfMemory` where memory is refused, and else what is wrong with the value.
fn put_late<P: Place<TcFilterFlowerOption>>(
    place: &mut P,
    alloc: Global,
    item: &NlaBuffer<'_>,
) -> Result<(), DecodeError>
    requires ready { P.ready place.old }
    requires behind { 99 ≤ number_of (item.now).kind }
    requires flat { IsFlat (number_of (item.now).kind) }
    ensures ok { IfOk result (λ _. (a : TcFilterFlowerOption) × P.puts place.old a place.new × reads_at table (number_of (item.now).kind) item.now a) }
    ensures refused { IfErr result (λ e. e ≢ OutOfMemory → wrong_at table (number_of (item.now).kind) item.now e) }
{
    rows!(one_part(late put_part (place, alloc, item, put_rest(place, alloc, item))))
}

/// Puts an attribute of a number from 81 on. Asks that its number is not that of a list.
///
/// # Errors
/// `OutOfMemory` where memory is refused, and else what is wrong with the value.
fn put_high<P: Place<TcFilterFlowerOption>>(
    place: &mut P,
    alloc: Global,
    item: &NlaBuffer<'_>,
) -> Result<(), DecodeError>
    requires ready { P.ready place.old }
    requires behind { 81 ≤ number_of (item.now).kind }
    requires flat { IsFlat (number_of (item.now).kind) }
    ensures ok { IfOk result (λ _. (a : TcFilterFlowerOption) × P.puts place.old a place.new × reads_at table (number_of (item.now).kind) item.now a) }
    ensures refused { IfErr result (λ e. e ≢ OutOfMemory → wrong_at table (number_of (item.now).kind) item.now e) }
{
    rows!(one_part(high put_part (place, alloc, item, put_late(place, alloc, item))))
}

/// Puts an attribute of a number from 61 on. Asks that its number is not that of a list.
///
/// # Errors
/// `OutOfMemory` where memory is refused, and else what is wrong with the value.
fn put_arp<P: Place<TcFilterFlowerOption>>(
    place: &mut P,
    alloc: Global,
    item: &NlaBuffer<'_>,
) -> Result<(), DecodeError>
    requires ready { P.ready place.old }
    requires behind { 61 ≤ number_of (item.now).kind }
    requires flat { IsFlat (number_of (item.now).kind) }
    ensures ok { IfOk result (λ _. (a : TcFilterFlowerOption) × P.puts place.old a place.new × reads_at table (number_of (item.now).kind) item.now a) }
    ensures refused { IfErr result (λ e. e ≢ OutOfMemory → wrong_at table (number_of (item.now).kind) item.now e) }
{
    rows!(one_part(arp put_part (place, alloc, item, put_high(place, alloc, item))))
}

/// Puts an attribute of a number from 41 on. Asks that its number is not that of a list.
///
/// # Errors
/// `OutOfMemory` where memory is refused, and else what is wrong with the value.
fn put_tunnel<P: Place<TcFilterFlowerOption>>(
    place: &mut P,
    alloc: Global,
    item: &NlaBuffer<'_>,
) -> Result<(), DecodeError>
    requires ready { P.ready place.old }
    requires behind { 41 ≤ number_of (item.now).kind }
    requires flat { IsFlat (number_of (item.now).kind) }
    ensures ok { IfOk result (λ _. (a : TcFilterFlowerOption) × P.puts place.old a place.new × reads_at table (number_of (item.now).kind) item.now a) }
    ensures refused { IfErr result (λ e. e ≢ OutOfMemory → wrong_at table (number_of (item.now).kind) item.now e) }
{
    rows!(one_part(tunnel put_part (place, alloc, item, put_arp(place, alloc, item))))
}

/// Puts an attribute of a number from 21 on. Asks that its number is not that of a list.
///
/// # Errors
/// `OutOfMemory` where memory is refused, and else what is wrong with the value.
fn put_addresses<P: Place<TcFilterFlowerOption>>(
    place: &mut P,
    alloc: Global,
    item: &NlaBuffer<'_>,
) -> Result<(), DecodeError>
    requires ready { P.ready place.old }
    requires behind { 21 ≤ number_of (item.now).kind }
    requires flat { IsFlat (number_of (item.now).kind) }
    ensures ok { IfOk result (λ _. (a : TcFilterFlowerOption) × P.puts place.old a place.new × reads_at table (number_of (item.now).kind) item.now a) }
    ensures refused { IfErr result (λ e. e ≢ OutOfMemory → wrong_at table (number_of (item.now).kind) item.now e) }
{
    rows!(one_part(addresses put_part (place, alloc, item, put_tunnel(place, alloc, item))))
}

/// Puts an attribute. Asks that its number is not that of a list.
///
/// # Errors
/// `OutOfMemory` where memory is refused, and else what is wrong with the value.
pub(crate) fn put_low<P: Place<TcFilterFlowerOption>>(
    place: &mut P,
    alloc: Global,
    item: &NlaBuffer<'_>,
) -> Result<(), DecodeError>
    requires ready { P.ready place.old }
    requires flat { IsFlat (number_of (item.now).kind) }
    ensures ok { IfOk result (λ _. (a : TcFilterFlowerOption) × P.puts place.old a place.new × reads_at table (number_of (item.now).kind) item.now a) }
    ensures refused { IfErr result (λ e. e ≢ OutOfMemory → wrong_at table (number_of (item.now).kind) item.now e) }
{
    rows!(one_part(low put_part (place, alloc, item, put_addresses(place, alloc, item); 0 => put_rest(place, alloc, item),)))
}
