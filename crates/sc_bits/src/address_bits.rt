//! One bit of an address.
ghost use Rattle.std.specs.Prelude.{◌≡◌, ◌<◌};
ghost use Rattle.sc_bits.specs.Blocks.{width_of, mask_bit, address_bit};
ghost use Rattle.sc_bits.specs.Addresses.{block, ip_bit};

use sc_ip::Ip;

/// Bit `place` of an address: 0 says version 6, 1 to 128 are the prefix as a mask, and 129 to 256 the address from its
/// highest bit.
pub fn ip_bit(a: &Ip, place: u64) -> bool
    requires { place < 257 }
    ensures { result ≡ ip_bit a.now place }
{
    if place == 0 {
        is_v6(a)
    } else if place <= 128 {
        place - 1 < u64::from(prefix(a))
    } else {
        address_bit(a, place - 129)
    }
}

/// Bit j of the address from its highest one.
fn address_bit(a: &Ip, j: u64) -> bool
    ensures { result ≡ address_bit (block a.now) j }
{
    j < width(a) && (number(a) >> (width(a) - 1 - j)) & 1 == 1
}

fn is_v6(a: &Ip) -> bool
    ensures { result ≡ (block a.now).is_v6 }
{
    matches!(*a, Ip::V6 { .. })
}

fn number(a: &Ip) -> u128
    ensures { result ≡ (block a.now).address }
{
    match *a {
        Ip::V4 { address, .. } => u128::from(address),
        Ip::V6 { address, .. } => address,
    }
}

fn prefix(a: &Ip) -> u8
    ensures { result ≡ (block a.now).prefix }
{
    match *a {
        Ip::V4 { prefix, .. } => prefix,
        Ip::V6 { prefix, .. } => prefix,
    }
}

fn width(a: &Ip) -> u64
    ensures { result ≡ width_of (block a.now) }
{
    match *a {
        Ip::V4 { .. } => 32,
        Ip::V6 { .. } => 128,
    }
}
