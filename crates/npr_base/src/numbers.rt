//! The bodies of an enumeration's conversions and of its text, from its one list of numbers. A row is
//! a number, a variant, and the text where the enumeration is printed. Rows in a second pair of braces
//! are written by a number that reads as something else. Any other number is `Other`.

/// The variant of a number.
#[macro_export]
macro_rules! variant_of_number {
    (($number:expr) $set:ident { $($n:literal $variant:ident $($text:literal)?;)* } $({ $($written:tt)* })?) => {
        match $number {
            $($n => $set::$variant,)*
            _ => $set::Other($number),
        }
    };
}

/// The number of a variant.
#[macro_export]
macro_rules! number_of_variant {
    (($of:expr) $set:ident { $($n:literal $variant:ident $($text:literal)?;)* } $({ $($m:literal $written:ident $($word:literal)?;)* })?) => {
        match $of {
            $($set::$variant => $n,)*
            $($($set::$written => $m,)*)?
            $set::Other(number) => number,
        }
    };
}

/// Writes the text of a variant, and of any other number `$other` around it.
#[macro_export]
macro_rules! write_variant {
    (($of:expr, $f:expr, $other:literal) $set:ident { $($n:literal $variant:ident $text:literal;)* } $({ $($m:literal $written:ident $word:literal;)* })?) => {
        $f.write_str(match $of {
            $($set::$variant => $text,)*
            $($($set::$written => $word,)*)?
            $set::Other(number) => return write!($f, $other, number),
        })
    };
}
