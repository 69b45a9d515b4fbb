//! Reads an address from its text.
ghost use Rattle.std.specs.Prelude.{◌≡◌, ℕ, ◌≤◌, IfOk, OnErr, IfSome, IfNone};
ghost use Rattle.std.specs.Option.{SomeIff};
ghost use Rattle.std.specs.Result.{result_ok};
ghost use Rattle.sc_ip.specs.Addresses.{IsIp, width_of};
ghost use Rattle.sc_ip.specs.IpText.{IsV4Text, IsFullText, IsGap, IsV6Text, IsAddressText, IsIpText, with_prefix};
ghost use Rattle.sc_ip.specs.IpValue.{ip_of};
ghost use Rattle.sc_ip.specs.declared.ip.Ip.{Ip};

use crate::groups::read_groups;
use crate::ip::Ip;
use crate::notation::{Notation, read_number};
use thiserror::Error;

/// The text is no address.
#[derive(Clone, Copy, Debug, PartialEq, Eq, Error)]
#[error("not an address")]
pub struct BadIp;

/// Reads the address that a text stands for: four decimal groups without leading zeros, or eight
/// groups of one to four hexadecimal digits with at most one `::` for at least one group (RFC
/// 4291, without a dotted tail), and then optionally a `/` and a prefix without leading zeros.
pub fn read_ip(text: &str) -> Result<Ip, BadIp>
    ensures ok { IfOk result (λ a. IsIpText text.now a) }
    ensures in_range { IfOk result (λ a. IsIp a) }
    ensures err { OnErr result ((a : Ip) → IsIpText text.now a → ⊥) }
    ensures value { result_ok result ≡ ip_of text.now }
    ensures only { (a b : Ip) → IsIpText text.now a → IsIpText text.now b → a ≡ b }
{
    read_with_prefix(text).ok_or(BadIp)
}

/// An address and perhaps a prefix.
fn read_with_prefix(text: &str) -> Option<Ip>
    ensures some { IfSome result (λ a. IsIpText text.now a) }
    ensures in_range { IfSome result (λ a. IsIp a) }
    ensures none { IfNone result ((a : Ip) → IsIpText text.now a → ⊥) }
{
    match text.split_once('/') {
        Some((address, prefix)) => {
            let whole = read_address(address)?;
            replace_prefix(whole, read_number(prefix)?)
        }
        None => read_address(text),
    }
}

/// The address with another prefix, if it has so many bits.
fn replace_prefix(a: Ip, prefix: u8) -> Option<Ip>
    ensures value { SomeIff result (prefix ≤ width_of a) (with_prefix a prefix) }
    ensures in_range { IfSome result (λ b. IsIp a → IsIp b) }
{
    match a {
        Ip::V4 { address, .. } if prefix <= 32 => Some(Ip::V4 { address, prefix }),
        Ip::V6 { address, .. } if prefix <= 128 => Some(Ip::V6 { address, prefix }),
        _ => None,
    }
}

/// An address without a prefix, which is then of all bits.
fn read_address(text: &str) -> Option<Ip>
    ensures some { IfSome result (λ a. IsAddressText text.now a) }
    ensures in_range { IfSome result (λ a. IsIp a) }
    ensures none { IfNone result ((a : Ip) → IsAddressText text.now a → ⊥) }
{
    if let Some(address) = read_v4(text) {
        return Some(Ip::V4 {
            address,
            prefix: 32,
        });
    }
    let address = read_v6(text)?;
    Some(Ip::V6 {
        address,
        prefix: 128,
    })
}

/// Four decimal groups.
fn read_v4(text: &str) -> Option<u32>
    ensures some { IfSome result (λ a. IsV4Text text.now a) }
    ensures none { IfNone result ((a : ℕ) → IsV4Text text.now a → ⊥) }
{
    let groups = read_groups(Notation::Decimal, text)?;
    if groups.count != 4 {
        return None;
    }
    u32::try_from(groups.value).ok()
}

/// Eight hexadecimal groups, or fewer and a gap.
fn read_v6(text: &str) -> Option<u128>
    ensures some { IfSome result (λ a. IsV6Text text.now a) }
    ensures none { IfNone result ((a : ℕ) → IsV6Text text.now a → ⊥) }
{
    match text.split_once("::") {
        Some((front, back)) => read_gap(front, back),
        None => read_full(text),
    }
}

/// Eight hexadecimal groups.
fn read_full(text: &str) -> Option<u128>
    ensures some { IfSome result (λ a. IsFullText text.now a) }
    ensures none { IfNone result ((a : ℕ) → IsFullText text.now a → ⊥) }
{
    let groups = read_groups(Notation::Hexadecimal, text)?;
    if groups.count != 8 {
        return None;
    }
    Some(groups.value)
}

/// Fewer than eight groups, in front of a gap and behind.
fn read_gap(front: &str, back: &str) -> Option<u128>
    ensures some { IfSome result (λ a. IsGap front.now back.now a) }
    ensures none { IfNone result ((a : ℕ) → IsGap front.now back.now a → ⊥) }
{
    let front = read_groups(Notation::Hexadecimal, front)?;
    let back = read_groups(Notation::Hexadecimal, back)?;
    if front.count + back.count > 7 {
        return None;
    }
    Some(front.filled() + back.value)
}
