//! How values are read without memory, from a family's one list of rows.

/// By a number: the place that refusals tell, and how the value is read without memory.
#[macro_export]
macro_rules! form_rows {
    (($number:expr $(; $($more:tt)*)?) $family:ident of $at:ident { $($row:tt $variant:ident $(($($codec:tt)+))? $(as $kind:expr)?;)* }) => {
        (
            $crate::AttributeSet::$at.at($number),
            match $number {
                $($($more)*)?
                $($row => $crate::form_row!($($($codec)+)?),)*
                _ => $crate::Form::Raw,
            },
        )
    };
}

/// A row's part of it.
#[macro_export]
macro_rules! form_row {
    () => {
        $crate::Form::Dropped
    };
    (byte) => {
        $crate::Form::Byte
    };
    (boolean) => {
        $crate::Form::Boolean
    };
    (signed32) => {
        $crate::Form::Signed32
    };
    (signed64) => {
        $crate::Form::Signed64
    };
    (le16) => {
        $crate::Form::Little16
    };
    (le32) => {
        $crate::Form::Little32
    };
    (le64) => {
        $crate::Form::Little64
    };
    (be16) => {
        $crate::Form::Big16
    };
    (be32) => {
        $crate::Form::Big32
    };
    (be64) => {
        $crate::Form::Big64
    };
    (uint) => {
        $crate::Form::Uint
    };
    (flag) => {
        $crate::Form::Flag
    };
    (octets4) => {
        $crate::Form::Octets4
    };
    (octets16) => {
        $crate::Form::Octets16
    };
    (octets $len:literal) => {
        $crate::Form::Exactly($len)
    };
    (ip) => {
        $crate::Form::Ip
    };
    (name) => {
        $crate::Form::Name
    };
    (raw) => {
        $crate::Form::Raw
    };
    (list $set:ident) => {
        $crate::Form::List($crate::AttributeSet::$set, 0)
    };
    ($of:ident value) => {
        $crate::Form::Inside
    };
    ($of:ident value raw) => {
        $crate::Form::Raw
    };
    ($of:ident inside $set:ident $front:literal) => {
        $crate::Form::List($crate::AttributeSet::$set, $front)
    };
    ($of:ident as $number:ident $(by $by:ident)?) => {
        $crate::form_row!($number)
    };
    ($of:ident flags $number:ident) => {
        $crate::form_row!($number)
    };
    ($of:ident exactly $len:literal) => {
        $crate::Form::Exactly($len)
    };
    ($of:ident leading $len:literal) => {
        $crate::Form::Leading($len)
    };
}
