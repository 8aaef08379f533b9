//! The rows of the tunnels over IP, whose two versions differ in the address, the set of flags and
//! the names of two variants.

/// The rows, given these five.
#[macro_export]
macro_rules! ip_rows {
    ($body:ident ($($given:tt)*) $family:ident of $at:ident, $address:ident, $hops:ident, $service:ident, $flags:ident) => {
        npr_base::$body!(($($given)*) $family of $at {
            0 Unspecified;
            1 Id(be64);
            2 Destination($address);
            3 Source($address);
            4 $hops(byte);
            5 $service(byte);
            6 Flags($flags flags be16);
            8 Opts(list Opt) as npr_base::NLA_F_NESTED + 8;
        })
    };
}
