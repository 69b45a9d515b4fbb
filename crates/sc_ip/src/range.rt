//! Whether the addresses of one range are among those of another.
ghost use Rattle.std.specs.Prelude.{◌≡◌, ℕ, ◌-◌, ◌/◌, ◌^◌, IsTrue, ◌↔◌};
ghost use Rattle.sc_ip.specs.Addresses.{is_version_4, address_of, width_of, prefix_of, IsInRange, IsLoopback, IsMulticast, is_in_range, is_loopback, is_multicast};

use crate::ip::Ip;

/// Whether two addresses are of one version, and the first one's range is within the second's.
pub fn in_range(a: &Ip, b: &Ip) -> bool
    ensures decides { IsTrue result ↔ IsInRange a.now b.now }
    ensures value { result ≡ is_in_range a.now b.now }
{
    lies_in(a, b)
}

/// Whether the two are of one version, and each address of the first range is one of the second.
fn lies_in(a: &Ip, b: &Ip) -> bool
    ensures { IsTrue result ↔ IsInRange a.now b.now }
{
    is_v4(a) == is_v4(b) && is_within(number(a), free_bits(a), number(b), free_bits(b))
}

/// The address as a number.
fn number(a: &Ip) -> u128
    ensures { result ≡ address_of a.now }
{
    match *a {
        Ip::V4 { address, .. } => u128::from(address),
        Ip::V6 { address, .. } => address,
    }
}

/// How many lowest bits the prefix leaves free.
fn free_bits(a: &Ip) -> u8
    ensures { result ≡ width_of a.now - prefix_of a.now }
{
    match *a {
        Ip::V4 { prefix, .. } => 32_u8.saturating_sub(prefix),
        Ip::V6 { prefix, .. } => 128_u8.saturating_sub(prefix),
    }
}

/// Whether all that agrees with x but for so many lowest bits agrees so with y too.
fn is_within(x: u128, x_free: u8, y: u128, y_free: u8) -> bool
    ensures { IsTrue result ↔ ((n : ℕ) → n / 2 ^ x_free ≡ x / 2 ^ x_free → n / 2 ^ y_free ≡ y / 2 ^ y_free) }
{
    x_free <= y_free && without_lowest(x, y_free) == without_lowest(y, y_free)
}

/// A number without its lowest bits.
fn without_lowest(n: u128, bits: u8) -> u128
    ensures { result ≡ n / 2 ^ bits }
{
    n.checked_shr(u32::from(bits)).unwrap_or(0)
}

/// Whether an address is of version 4.
pub fn is_v4(a: &Ip) -> bool
    ensures { result ≡ is_version_4 a.now }
{
    matches!(a, Ip::V4 { .. })
}

/// Whether the range is within `127.0.0.0/8` or `::1/128`.
pub fn is_loopback(a: &Ip) -> bool
    ensures decides { IsTrue result ↔ IsLoopback a.now }
    ensures value { result ≡ is_loopback a.now }
{
    let version_4 = Ip::V4 {
        address: 0x7f00_0000,
        prefix: 8,
    };
    let version_6 = Ip::V6 {
        address: 1,
        prefix: 128,
    };
    in_range(a, &version_4) || in_range(a, &version_6)
}

/// Whether the range is within `224.0.0.0/4` or `ff00::/8`.
pub fn is_multicast(a: &Ip) -> bool
    ensures decides { IsTrue result ↔ IsMulticast a.now }
    ensures value { result ≡ is_multicast a.now }
{
    let version_4 = Ip::V4 {
        address: 0xe000_0000,
        prefix: 4,
    };
    let version_6 = Ip::V6 {
        address: 0xff00_0000_0000_0000_0000_0000_0000_0000,
        prefix: 8,
    };
    in_range(a, &version_4) || in_range(a, &version_6)
}
