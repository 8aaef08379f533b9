//! The bodies of a kind's functions, from its one list of names. A row is a name and a variant; `Other`
//! holds any other name.

/// The variant that has a name, if one has it.
#[macro_export]
macro_rules! variant_of_name {
    (($text:expr) $set:ident { $($name:literal $variant:ident;)* }) => {
        match $text {
            $($name => Some($set::$variant),)*
            _ => None,
        }
    };
}

/// The name of a variant.
#[macro_export]
macro_rules! name_of_variant {
    (($of:expr) $set:ident { $($name:literal $variant:ident;)* }) => {
        match $of {
            $($set::$variant => $name,)*
            $set::Other(name) => name.as_str(),
        }
    };
}

/// An equal variant.
#[macro_export]
macro_rules! variant_cloned {
    (($of:expr, $alloc:expr) $set:ident { $($name:literal $variant:ident;)* }) => {
        match $of {
            $($set::$variant => Ok($set::$variant),)*
            $set::Other(name) => String::from_str($alloc, name.as_str()).map($set::Other),
        }
    };
}
