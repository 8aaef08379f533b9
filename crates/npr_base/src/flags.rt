//! The list of a set's named flags.

/// The flags of a set, each with the name of its constant, and last one without a name, of all bits,
/// so that every bit is kept.
#[macro_export]
macro_rules! named_flags {
    ($set:ident: $($name:ident),*; $all:expr) => {
        &[
            $(bitflags::Flag { name: stringify!($name), value: $set::$name },)*
            bitflags::Flag { name: "", value: $set($all) },
        ]
    };
}
