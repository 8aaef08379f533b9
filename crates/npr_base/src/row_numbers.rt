//! The numbers of rows: their lengths and bytes, and the numbers of enumerations.

/// The length of a number, in bytes.
#[macro_export]
macro_rules! number_len {
    (byte) => {
        1
    };
    (boolean) => {
        1
    };
    (le16) => {
        2
    };
    (be16) => {
        2
    };
    (le64) => {
        8
    };
    (be64) => {
        8
    };
    (signed64) => {
        8
    };
    ($four:ident) => {
        4
    };
}

/// The bytes of a number, or of an address.
#[macro_export]
macro_rules! number_bytes {
    (byte $n:expr) => {
        [$n]
    };
    (boolean $n:expr) => {
        [u8::from($n)]
    };
    (octets4 $n:expr) => {
        $n.octets()
    };
    (octets16 $n:expr) => {
        $n.octets()
    };
    (be16 $n:expr) => {
        $n.to_be_bytes()
    };
    (be32 $n:expr) => {
        $n.to_be_bytes()
    };
    (be64 $n:expr) => {
        $n.to_be_bytes()
    };
    ($little:ident $n:expr) => {
        $n.to_le_bytes()
    };
}

/// The number of a value of an enumeration.
#[macro_export]
macro_rules! number_of {
    (byte $x:expr) => {
        u8::from($x)
    };
    (le16 $x:expr) => {
        u16::from($x)
    };
    (le32 $x:expr) => {
        u32::from($x)
    };
    (le64 $x:expr) => {
        u64::from($x)
    };
    (signed32 $x:expr) => {
        i32::from($x)
    };
}
