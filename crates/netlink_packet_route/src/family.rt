//! What a family of attributes of one's own is made of: how one value is read and written.

pub use npr_base::{
    Place, check_len, framed_len, ip_len, leading_octets, octets_at, put_ip, put_read, read_bool,
    read_bytes, read_i32, read_ip, read_ipv4, read_ipv6, read_name, read_octets, read_u8, read_u16,
    read_u16_be, read_u32, read_u32_be, read_u64, read_u64_be, write_array, write_bytes, write_ip,
    write_name,
};
