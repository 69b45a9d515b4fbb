//! An address from its bits.
ghost use Rattle.std.specs.Prelude.{◌≡◌, ◌≤◌, ◌<◌, ◌^◌, ◌+◌, ◌-◌, length, get_or, false};
ghost use Rattle.sc_bits.specs.Bits.{number};
ghost use Rattle.sc_bits.specs.Blocks.{length_below};
ghost use Rattle.sc_bits.specs.Addresses.{ip_of};

use sc_ip::Ip;

/// The address that has these bits.
pub fn ip_from_bits(bits: &[bool]) -> Ip
    requires { length bits.now ≡ 257 }
    ensures { result ≡ ip_of (λ k. get_or bits.now k false) }
{
    if bits[0] {
        Ip::V6 {
            address: address(bits, 128),
            prefix: prefix(bits),
        }
    } else {
        Ip::V4 {
            address: address(bits, 32) as u32,
            prefix: prefix(bits),
        }
    }
}

/// The address in so many first bits behind the mask.
fn address(bits: &[bool], width: usize) -> u128
    requires all { length bits.now ≡ 257 }
    requires within { width ≤ 128 }
    ensures below { result < 2 ^ width }
    ensures value { result ≡ number (λ i. get_or bits.now (129 + (width - 1 - i)) false) width }
{
    let mut number: u128 = 0;
    for i in 0..width {
        if bits[129 + (width - 1 - i)] {
            number += 1 << i;
        }
    }
    number
}

/// How long the mask is.
fn prefix(bits: &[bool]) -> u8
    requires { length bits.now ≡ 257 }
    ensures { result ≡ length_below (λ j. get_or bits.now (1 + j) false) 128 }
{
    let mut length = 0;
    for j in 0..128_u8 {
        if bits[1 + usize::from(j)] {
            length = j + 1;
        }
    }
    length
}
