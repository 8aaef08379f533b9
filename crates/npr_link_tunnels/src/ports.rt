//! Ranges of ports of UDP: `struct ifla_vxlan_port_range` and `struct ifla_geneve_port_range` of `linux/if_link.h`.

ghost use Rattle.std.specs.Prelude.{◌≡◌, ◌≤◌, length, IfOk, IfErr};
ghost use Rattle.{npr_base.specs.{Codec.{exactly}, Framing.{Writes}}, npr_link_tunnels.specs.Ports.{ports}};

use npr_base::{At, DecodeError, read_octets, write_array};

/// The first and the last port: 2 bytes each, big endian.
///
/// # Errors
/// `ValueLength` at another length than 4.
pub(crate) fn read_ports(value: &[u8], at: At) -> Result<(u16, u16), DecodeError>
    ensures ok { IfOk result (λ pair. (exactly ports).Reads value.now pair) }
    ensures refused { IfErr result (λ e. (exactly ports).Wrong at value.now e) }
{
    let [a, b, c, d] = read_octets::<4>(value, at)?;
    Ok((u16::from_be_bytes([a, b]), u16::from_be_bytes([c, d])))
}

/// Writes both at the front of the slice, leaves the rest, and answers their length. Asks for room of 4.
pub(crate) fn write_ports(range: (u16, u16), out: &mut [u8]) -> usize
    requires { 4 ≤ length out.old }
    ensures len { result ≡ 4 }
    ensures after { Writes out.old out.new (ports.encode range) }
{
    let [a, b] = range.0.to_be_bytes();
    let [c, d] = range.1.to_be_bytes();
    write_array([a, b, c, d], out)
}
