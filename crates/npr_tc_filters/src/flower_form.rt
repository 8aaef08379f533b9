//! How the data of a flower filter are read without memory: `TCA_FLOWER_*` of `linux/pkt_cls.h`.

ghost use Rattle.std.specs.Prelude.{◌≡◌, ◌≤◌, true};
ghost use Rattle.npr_tc_filters.specs.{Flower.{no_row}, FlowerForm.{form_at}};

use crate::flower_rows::{form_part, one_part, rows};
use npr_base::{At, AttributeSet, Form};

/// Of a number that no row has: its bytes.
fn form_rest(number: u16) -> (At, Form)
    requires { no_row number ≡ true }
    ensures { result ≡ form_at number }
{
    (AttributeSet::TcFilterFlower.at(number), Form::Raw)
}

/// The same of a number from 99 on.
fn form_late(number: u16) -> (At, Form)
    requires { 99 ≤ number }
    ensures { result ≡ form_at number }
{
    rows!(one_part(late form_part (number, form_rest(number))))
}

/// The same of a number from 81 on.
fn form_high(number: u16) -> (At, Form)
    requires { 81 ≤ number }
    ensures { result ≡ form_at number }
{
    rows!(one_part(high form_part (number, form_late(number))))
}

/// The same of a number from 61 on.
fn form_arp(number: u16) -> (At, Form)
    requires { 61 ≤ number }
    ensures { result ≡ form_at number }
{
    rows!(one_part(arp form_part (number, form_high(number))))
}

/// The same of a number from 41 on.
fn form_tunnel(number: u16) -> (At, Form)
    requires { 41 ≤ number }
    ensures { result ≡ form_at number }
{
    rows!(one_part(tunnel form_part (number, form_arp(number))))
}

/// The same of a number from 21 on.
fn form_addresses(number: u16) -> (At, Form)
    requires { 21 ≤ number }
    ensures { result ≡ form_at number }
{
    rows!(one_part(addresses form_part (number, form_tunnel(number))))
}

/// By a number: the place that refusals tell, and how the value is read.
pub(crate) fn form_low(number: u16) -> (At, Form)
    ensures { result ≡ form_at number }
{
    rows!(one_part(low form_part (number, form_addresses(number); 0 => form_rest(number),)))
}
