//! The bodies of the functions of data that a name governs: from their one list of variants, each with the
//! codec of its value in parentheses (as in `rows.rt`: lists, structures with more behind them, values), and
//! the name of what governs it, which is the variant's; and from the list of the names. Arms of a match that
//! stand behind a semicolon go behind those of the list.

/// What the bytes are, by what governs.
#[macro_export]
macro_rules! data_read {
    (($form:expr, $forms:ident, $alloc:expr, $bytes:expr, $looks:expr $(; $($more:tt)*)?) $set:ident { $($variant:ident($($codec:tt)+);)* }) => {
        match $form {
            $($forms::$variant => Ok($set::$variant($crate::data_value!([$alloc, $bytes, $looks] $($codec)+)?)),)*
            $($($more)*)?
        }
    };
}

/// A variant's part of it.
#[macro_export]
macro_rules! data_value {
    ([$alloc:expr, $bytes:expr, $looks:expr] list $set:ident) => {
        $crate::parse_list($alloc, (), $bytes, $looks)
    };
    ([$alloc:expr, $bytes:expr, $looks:expr] $of:ident leading $len:literal) => {
        $of::parse($bytes)
    };
    ([$alloc:expr, $bytes:expr, $looks:expr] $of:ident inside $set:ident $front:literal) => {
        $of::read($alloc, $bytes, $looks)
    };
    ([$alloc:expr, $bytes:expr, $looks:expr] $of:ident value raw) => {
        $of::read($alloc, $bytes)
    };
}

/// How the bytes are read without memory, by what governs.
#[macro_export]
macro_rules! data_form {
    (($form:expr, $forms:ident $(; $($more:tt)*)?) $set:ident { $($variant:ident($($codec:tt)+);)* }) => {
        match $form {
            $($forms::$variant => $crate::form_row!($($codec)+),)*
            $($($more)*)?
        }
    };
}

/// An equal value.
#[macro_export]
macro_rules! data_cloned {
    (($of:expr, $alloc:expr $(; $($more:tt)*)?) $set:ident { $($variant:ident($($codec:tt)+);)* }) => {
        match $of {
            $($set::$variant(x) => $crate::clone_row!([$set::$variant, x, $alloc] $($codec)+),)*
            $($($more)*)?
        }
    };
}

/// The length of the bytes, or the first cause inside why there are none.
#[macro_export]
macro_rules! data_checked {
    (($of:expr $(; $($more:tt)*)?) $set:ident { $($variant:ident($($codec:tt)+);)* }) => {
        match $of {
            $($set::$variant(x) => $crate::data_len!([x] $($codec)+),)*
            $($($more)*)?
        }
    };
}

/// A variant's part of it.
#[macro_export]
macro_rules! data_len {
    ([$x:ident] list $set:ident) => {
        $crate::check_list($x.as_slice())
    };
    ([$x:ident] $of:ident inside $set:ident $front:literal) => {
        $x.check()
    };
    ([$x:ident] $($codec:tt)+) => {
        Ok($crate::len_row!([$x] $($codec)+))
    };
}

/// Writes the bytes, and answers their length.
#[macro_export]
macro_rules! data_written {
    (($of:expr, $out:expr $(; $($more:tt)*)?) $set:ident { $($variant:ident($($codec:tt)+);)* }) => {
        match $of {
            $($set::$variant(x) => $crate::write_row!([x, $out] $($codec)+),)*
            $($($more)*)?
        }
    };
}

/// What governs data under a kind of a name.
#[macro_export]
macro_rules! form_of_kind {
    (($text:expr) $set:ident { $($name:literal $variant:ident;)* }) => {{
        $(if $text == $name.as_bytes() {
            return $set::$variant;
        })*
        $set::Kept
    }};
}
