//! Writes an address as text.
ghost use Rattle.std.specs.Prelude.{◌≡◌, ◌/◌, ◌%◌, ◌^◌, ◌<◌, IfOk, string_bytes};
ghost use Rattle.sc_ip.specs.Addresses.{IsIp};
ghost use Rattle.sc_ip.specs.IpText.{IsIpText, ip_text};
ghost use Rattle.sc_ip.specs.declared.ip.Ip.TheVariants.{V4, V6};

use crate::ip::Ip;
use std::alloc::{AllocError, Global};

/// The text of an address with its prefix: all groups, without leading zeros and in lower case, a
/// `/` and the prefix. Reading it gives the address.
pub fn write_ip(alloc: Global, a: &Ip) -> Result<String, AllocError>
    ensures text { IfOk result (λ s. string_bytes s ≡ ip_text a.now) }
    ensures reads_back { IsIp a.now → IfOk result (λ s. IsIpText (string_bytes s) a.now) }
{
    match *a {
        Ip::V4 { address, prefix } => write_v4(alloc, address, prefix),
        Ip::V6 { address, prefix } => write_v6(alloc, address, prefix),
    }
}

/// Four decimal groups and the prefix.
fn write_v4(alloc: Global, address: u32, prefix: u8) -> Result<String, AllocError>
    ensures { IfOk result (λ s. string_bytes s ≡ ip_text (V4 address prefix)) }
{
    let a = address / 0x100_0000 % 0x100;
    let b = address / 0x1_0000 % 0x100;
    let c = address / 0x100 % 0x100;
    let d = address % 0x100;
    format!(in alloc; "{a}.{b}.{c}.{d}/{prefix}")
}

/// Eight hexadecimal groups and the prefix.
fn write_v6(alloc: Global, address: u128, prefix: u8) -> Result<String, AllocError>
    ensures { IfOk result (λ s. string_bytes s ≡ ip_text (V6 address prefix)) }
{
    let a = group_at(address, 7);
    let b = group_at(address, 6);
    let c = group_at(address, 5);
    let d = group_at(address, 4);
    let e = group_at(address, 3);
    let f = group_at(address, 2);
    let g = group_at(address, 1);
    let h = group_at(address, 0);
    format!(in alloc; "{a:x}:{b:x}:{c:x}:{d:x}:{e:x}:{f:x}:{g:x}:{h:x}/{prefix}")
}

/// The group at a place, counted from the lowest.
fn group_at(address: u128, place: u32) -> u16
    requires { place < 8 }
    ensures { result ≡ address / 65536 ^ place % 65536 }
{
    (address / 65_536_u128.pow(place) % 65_536) as u16
}
