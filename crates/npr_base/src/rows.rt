//! The bodies of a family's functions, from its one list of rows. The list begins with the type and
//! with the family's name in refusals, as `RuleAttribute of Rule`. A row is a number, a variant, and
//! in parentheses the codec of its value; a number without one drops what stood there. `as` and a
//! kind follow where another kind than the number is written. `Other` is what no row says. Arms of
//! a match that stand behind a semicolon go before those of the rows.
//!
//! | Codec | The value |
//! |---|---|
//! | `byte`, `boolean`, `signed32`, `signed64`, `le16`, `le32`, `le64`, `be16`, `be32`, `be64` | a number, the lowest byte first or last |
//! | `uint`; `flag` | a number of 4 or 8 bytes, the lowest first; true without bytes or as one above 0 |
//! | `octets4`, `octets16`, `ip` | an address of version 4, of version 6, of both |
//! | `octets 6` | so many bytes as they stand, an address on a link |
//! | `name`, `raw`, `list S` | a name; bytes as they stand; attributes of the set `S` |
//! | `T as le32`, `T as byte by f` | an enumeration over such a number, which `f` gives where not each value has one |
//! | `T flags le32` | a set of flags over such a number |
//! | `T exactly 8` | a structure of so many bytes |
//! | `T leading 8` | one in front, behind which more may stand |
//! | `T value` | a value with `read`, which refuses memory alone, `try_clone`, `len` and `write` |
//! | `T value raw` | such a value, which is seen as bytes where it stands |
//! | `T inside S 24` | such a value, which has attributes of the set `S` behind so many bytes |

/// An equal attribute.
#[macro_export]
macro_rules! clone_rows {
    (($of:expr, $alloc:expr $(; $($more:tt)*)?) $family:ident of $at:ident { $($number:tt $variant:ident $(($($codec:tt)+))? $(as $kind:expr)?;)* }) => {
        match $of {
            $($($more)*)?
            $($family::$variant $(($crate::bound!([$($codec)+] x)))? =>
                $crate::clone_row!([$family::$variant, x, $alloc] $($($codec)+)?),)*
            $family::Other(nla) => nla.try_clone($alloc).map($family::Other),
        }
    };
}

/// A row's part of it.
#[macro_export]
macro_rules! clone_row {
    ([$family:ident::$variant:ident, $x:ident, $alloc:expr]) => {
        Ok($family::$variant)
    };
    ([$family:ident::$variant:ident, $x:ident, $alloc:expr] raw) => {
        Vec::from_slice($alloc, $x.as_slice()).map($family::$variant)
    };
    ([$family:ident::$variant:ident, $x:ident, $alloc:expr] name) => {
        String::from_str($alloc, $x.as_str()).map($family::$variant)
    };
    ([$family:ident::$variant:ident, $x:ident, $alloc:expr] list $set:ident) => {
        $crate::clone_list($alloc, $x.as_slice()).map($family::$variant)
    };
    ([$family:ident::$variant:ident, $x:ident, $alloc:expr] $of:ident value $($raw:ident)?) => {
        $x.try_clone($alloc).map($family::$variant)
    };
    ([$family:ident::$variant:ident, $x:ident, $alloc:expr] $of:ident inside $set:ident $front:literal) => {
        $x.try_clone($alloc).map($family::$variant)
    };
    ([$family:ident::$variant:ident, $x:ident, $alloc:expr] $($codec:tt)+) => {
        Ok($family::$variant(*$x))
    };
}

/// The kind, with the flags that it has by itself.
#[macro_export]
macro_rules! kind_rows {
    (($of:expr $(; $($more:tt)*)?) $family:ident of $at:ident { $($number:tt $variant:ident $(($($codec:tt)+))? $(as $kind:expr)?;)* }) => {
        match $of {
            $($($more)*)?
            $($family::$variant $(($crate::bound!([$($codec)+] _)))? => $crate::last!($number $(, $kind)?),)*
            $family::Other(nla) => nla.kind(),
        }
    };
}

/// The length of the value, in bytes. The first cause why a list inside has none goes out by `?`.
#[macro_export]
macro_rules! len_rows {
    (($of:expr $(; $($more:tt)*)?) $family:ident of $at:ident { $($number:tt $variant:ident $(($($codec:tt)+))? $(as $kind:expr)?;)* }) => {
        match $of {
            $($($more)*)?
            $($family::$variant $(($crate::bound!([$($codec)+] x)))? => $crate::len_row!([x] $($($codec)+)?),)*
            $family::Other(nla) => nla.value().len(),
        }
    };
}

/// A row's part of it.
#[macro_export]
macro_rules! len_row {
    ([$x:ident]) => {
        0
    };
    ([$x:ident] ip) => {
        $crate::ip_len($x)
    };
    ([$x:ident] uint) => {
        $crate::uint_len(*$x)
    };
    ([$x:ident] flag) => {
        $crate::flag_len(*$x)
    };
    ([$x:ident] octets4) => {
        $x.octets().len()
    };
    ([$x:ident] octets16) => {
        $x.octets().len()
    };
    ([$x:ident] octets $len:literal) => {
        $x.as_slice().len()
    };
    ([$x:ident] raw) => {
        $x.len()
    };
    ([$x:ident] name) => {
        $x.len() + 1
    };
    ([$x:ident] list $set:ident) => {
        $crate::check_list($x.as_slice())?
    };
    ([$x:ident] $of:ident exactly $len:literal) => {
        $len
    };
    ([$x:ident] $of:ident leading $len:literal) => {
        $len
    };
    ([$x:ident] $of:ident value $($raw:ident)?) => {
        $x.len()
    };
    ([$x:ident] $of:ident as $number:ident $(by $by:ident)?) => {
        $crate::number_len!($number)
    };
    ([$x:ident] $of:ident flags $number:ident) => {
        $crate::number_len!($number)
    };
    ([$x:ident] $number:ident) => {
        $crate::number_len!($number)
    };
}

/// Writes the value, and answers its length.
#[macro_export]
macro_rules! write_rows {
    (($of:expr, $out:expr $(; $($more:tt)*)?) $family:ident of $at:ident { $($number:tt $variant:ident $(($($codec:tt)+))? $(as $kind:expr)?;)* }) => {
        match $of {
            $($($more)*)?
            $($family::$variant $(($crate::bound!([$($codec)+] x)))? => $crate::write_row!([x, $out] $($($codec)+)?),)*
            $family::Other(nla) => $crate::write_bytes(nla.value(), $out),
        }
    };
}

/// A row's part of it.
#[macro_export]
macro_rules! write_row {
    ([$x:ident, $out:expr]) => {
        0
    };
    ([$x:ident, $out:expr] ip) => {
        $crate::write_ip($x, $out)
    };
    ([$x:ident, $out:expr] uint) => {
        $crate::write_uint(*$x, $out)
    };
    ([$x:ident, $out:expr] flag) => {
        $crate::write_flag(*$x, $out)
    };
    ([$x:ident, $out:expr] octets $len:literal) => {
        $crate::write_bytes($x.as_slice(), $out)
    };
    ([$x:ident, $out:expr] raw) => {
        $crate::write_bytes($x.as_slice(), $out)
    };
    ([$x:ident, $out:expr] name) => {
        $crate::write_name($x.as_str(), $out)
    };
    ([$x:ident, $out:expr] list $set:ident) => {
        $crate::write_list($x.as_slice(), $out)
    };
    ([$x:ident, $out:expr] $of:ident exactly $len:literal) => {
        $crate::write_array($x.to_bytes(), $out)
    };
    ([$x:ident, $out:expr] $of:ident leading $len:literal) => {
        $crate::write_array($x.to_bytes(), $out)
    };
    ([$x:ident, $out:expr] $of:ident value $($raw:ident)?) => {
        $x.write($out)
    };
    ([$x:ident, $out:expr] $of:ident inside $set:ident $front:literal) => {
        $x.write($out)
    };
    ([$x:ident, $out:expr] $of:ident as $number:ident) => {
        $crate::write_array($crate::number_bytes!($number $crate::number_of!($number *$x)), $out)
    };
    ([$x:ident, $out:expr] $of:ident as $number:ident by $by:ident) => {
        $crate::write_array($crate::number_bytes!($number $by(*$x)), $out)
    };
    ([$x:ident, $out:expr] $of:ident flags $number:ident) => {
        $crate::write_array($crate::number_bytes!($number $x.bits()), $out)
    };
    ([$x:ident, $out:expr] $number:ident) => {
        $crate::write_array($crate::number_bytes!($number *$x), $out)
    };
}

/// Puts what the attribute is into a place. What can't be read goes out at once, by `?`: a refusal that
/// the arms shared would be cleared for each attribute, kept in memory and asked for again.
#[macro_export]
macro_rules! put_rows {
    (($place:expr, $alloc:expr, $item:expr, $looks:expr $(; $($more:tt)*)?) $family:ident of $at:ident { $($number:tt $variant:ident $(($($codec:tt)+))? $(as $kind:expr)?;)* }) => {{
        let value = $item.value();
        match $item.kind() {
            $($($more)*)?
            $($number => $crate::put_row!([$place, $family::$variant, $alloc, value, $crate::AttributeSet::$at.at($number), $looks] $($($codec)+)?),)*
            _ => {
                $place.put($family::Other($crate::DefaultNla::read($alloc, $item)?));
                Ok(())
            }
        }
    }};
}

/// A row's part of it: an address goes without a move.
#[macro_export]
macro_rules! put_row {
    ([$place:expr, $family:ident::$variant:ident, $alloc:expr, $value:expr, $at:expr, $looks:expr]) => {{
        $place.put($family::$variant);
        Ok(())
    }};
    ([$place:expr, $family:ident::$variant:ident, $alloc:expr, $value:expr, $at:expr, $looks:expr] ip) => {
        $crate::put_ip($place, $value, $at, $family::$variant)
    };
    ([$place:expr, $family:ident::$variant:ident, $alloc:expr, $value:expr, $at:expr, $looks:expr] octets $len:literal) => {
        $crate::put_read($place, $crate::read_octets::<$len>($value, $at), $family::$variant)
    };
    ([$place:expr, $family:ident::$variant:ident, $alloc:expr, $value:expr, $at:expr, $looks:expr] name) => {{
        $place.put($family::$variant($crate::read_name($alloc, $value, $at)?));
        Ok(())
    }};
    ([$place:expr, $family:ident::$variant:ident, $alloc:expr, $value:expr, $at:expr, $looks:expr] raw) => {{
        $place.put($family::$variant($crate::read_bytes($alloc, $value)?));
        Ok(())
    }};
    ([$place:expr, $family:ident::$variant:ident, $alloc:expr, $value:expr, $at:expr, $looks:expr] list $set:ident) => {
        $crate::put_read($place, $crate::parse_list($alloc, (), $value, $looks), $family::$variant)
    };
    ([$place:expr, $family:ident::$variant:ident, $alloc:expr, $value:expr, $at:expr, $looks:expr] $of:ident value $($raw:ident)?) => {{
        $place.put($family::$variant($of::read($alloc, $value)?));
        Ok(())
    }};
    ([$place:expr, $family:ident::$variant:ident, $alloc:expr, $value:expr, $at:expr, $looks:expr] $of:ident as $number:ident $(by $by:ident)?) => {{
        $place.put($family::$variant($of::from($crate::read_value!([$alloc, $value, $at] $number)?)));
        Ok(())
    }};
    ([$place:expr, $family:ident::$variant:ident, $alloc:expr, $value:expr, $at:expr, $looks:expr] $of:ident flags $number:ident) => {{
        $place.put($family::$variant($of::from_bits_retain($crate::read_value!([$alloc, $value, $at] $number)?)));
        Ok(())
    }};
    ([$place:expr, $family:ident::$variant:ident, $alloc:expr, $value:expr, $at:expr, $looks:expr] $($codec:tt)+) => {{
        $place.put($family::$variant($crate::read_value!([$alloc, $value, $at] $($codec)+)?));
        Ok(())
    }};
}

/// What a value is, by its codec.
#[macro_export]
macro_rules! read_value {
    ([$alloc:expr, $value:expr, $at:expr] byte) => {
        $crate::read_u8($value, $at)
    };
    ([$alloc:expr, $value:expr, $at:expr] boolean) => {
        $crate::read_bool($value, $at)
    };
    ([$alloc:expr, $value:expr, $at:expr] signed32) => {
        $crate::read_i32($value, $at)
    };
    ([$alloc:expr, $value:expr, $at:expr] signed64) => {
        $crate::read_i64($value, $at)
    };
    ([$alloc:expr, $value:expr, $at:expr] le16) => {
        $crate::read_u16($value, $at)
    };
    ([$alloc:expr, $value:expr, $at:expr] le32) => {
        $crate::read_u32($value, $at)
    };
    ([$alloc:expr, $value:expr, $at:expr] le64) => {
        $crate::read_u64($value, $at)
    };
    ([$alloc:expr, $value:expr, $at:expr] be16) => {
        $crate::read_u16_be($value, $at)
    };
    ([$alloc:expr, $value:expr, $at:expr] be32) => {
        $crate::read_u32_be($value, $at)
    };
    ([$alloc:expr, $value:expr, $at:expr] be64) => {
        $crate::read_u64_be($value, $at)
    };
    ([$alloc:expr, $value:expr, $at:expr] uint) => {
        $crate::read_uint($value, $at)
    };
    ([$alloc:expr, $value:expr, $at:expr] flag) => {
        $crate::read_flag($value, $at)
    };
    ([$alloc:expr, $value:expr, $at:expr] octets4) => {
        $crate::read_ipv4($value, $at)
    };
    ([$alloc:expr, $value:expr, $at:expr] octets16) => {
        $crate::read_ipv6($value, $at)
    };
    ([$alloc:expr, $value:expr, $at:expr] $of:ident exactly $len:literal) => {
        $of::read($value, $at)
    };
    ([$alloc:expr, $value:expr, $at:expr] $of:ident leading $len:literal) => {
        $of::parse($value)
    };
}

/// A name, or none, for the value of a row that has one.
#[macro_export]
macro_rules! bound {
    ([$($codec:tt)+] $x:pat) => {
        $x
    };
}

/// The last of one or two.
#[macro_export]
macro_rules! last {
    ($x:expr) => {
        $x
    };
    ($x:expr, $y:expr) => {
        $y
    };
}
