//! What is asked of addresses, of operands that are compiled.
ghost use Rattle.std.specs.Prelude.{◌<◌, length, IfOk};
ghost use Rattle.sc_terms.specs.Tables.{tree, Keeps, StandsFor};
ghost use Rattle.sc_constructs.specs.Code.{is_version_4_code, is_version_6_code, in_range_code, within, in_either_code, is_loopback_code, is_multicast_code};
ghost use Rattle.sc_constructs.specs.Numbers.{IsCode, StandsAs, code_at};

use crate::opt::Opt;
use sc_ip::Ip;
use sc_sorts::Literal;
use sc_terms::Terms;
use std::alloc::AllocError;

/// The place of the bit that tells the version.
const VERSION: u64 = 0;

/// 127.0.0.0/8.
const LOOPBACK_4: Ip = Ip::V4 {
    address: 0x7f00_0000,
    prefix: 8,
};

/// ::1/128.
const LOOPBACK_6: Ip = Ip::V6 {
    address: 1,
    prefix: 128,
};

/// 224.0.0.0/4.
const MULTICAST_4: Ip = Ip::V4 {
    address: 0xe000_0000,
    prefix: 4,
};

/// ff00::/8.
const MULTICAST_6: Ip = Ip::V6 {
    address: 0xff00_0000_0000_0000_0000_0000_0000_0000,
    prefix: 8,
};

/// `a.isIpv4()`.
#[tactic(auto, using(crate::proofs::PlaceLaws::first_place))]
pub fn is_version_4(terms: &mut Terms, a: Opt) -> Result<Opt, AllocError>
    requires { IsCode terms.old a }
    ensures ok { IfOk result (λ o. StandsAs terms.new o (is_version_4_code (code_at terms.old a))) }
    ensures kept { Keeps terms.old terms.new }
{
    let bit = terms.bit(a.val, VERSION)?;
    let val = terms.not(bit)?;
    Ok(Opt { ok: a.ok, val })
}

/// `a.isIpv6()`.
#[tactic(auto, using(crate::proofs::PlaceLaws::first_place))]
pub fn is_version_6(terms: &mut Terms, a: Opt) -> Result<Opt, AllocError>
    requires { IsCode terms.old a }
    ensures ok { IfOk result (λ o. StandsAs terms.new o (is_version_6_code (code_at terms.old a))) }
    ensures kept { Keeps terms.old terms.new }
{
    let val = terms.bit(a.val, VERSION)?;
    Ok(Opt { ok: a.ok, val })
}

/// `a.isInRange(b)`.
pub fn in_range(terms: &mut Terms, a: Opt, b: Opt) -> Result<Opt, AllocError>
    requires a_in { IsCode terms.old a }
    requires b_in { IsCode terms.old b }
    ensures ok { IfOk result (λ o. StandsAs terms.new o (in_range_code (code_at terms.old a) (code_at terms.old b))) }
    ensures kept { Keeps terms.old terms.new }
{
    let ok = terms.and(a.ok, b.ok)?;
    let val = terms.in_range(a.val, b.val)?;
    Ok(Opt { ok, val })
}

/// `a.isLoopback()`.
pub fn is_loopback(terms: &mut Terms, a: Opt) -> Result<Opt, AllocError>
    requires { IsCode terms.old a }
    ensures ok { IfOk result (λ o. StandsAs terms.new o (is_loopback_code (code_at terms.old a))) }
    ensures kept { Keeps terms.old terms.new }
{
    in_either(terms, a, LOOPBACK_4, LOOPBACK_6)
}

/// `a.isMulticast()`.
pub fn is_multicast(terms: &mut Terms, a: Opt) -> Result<Opt, AllocError>
    requires { IsCode terms.old a }
    ensures ok { IfOk result (λ o. StandsAs terms.new o (is_multicast_code (code_at terms.old a))) }
    ensures kept { Keeps terms.old terms.new }
{
    in_either(terms, a, MULTICAST_4, MULTICAST_6)
}

/// Whether an address is within one of two ranges.
fn in_either(terms: &mut Terms, a: Opt, first: Ip, second: Ip) -> Result<Opt, AllocError>
    requires { IsCode terms.old a }
    ensures ok { IfOk result (λ o. StandsAs terms.new o (in_either_code first second (code_at terms.old a))) }
    ensures kept { Keeps terms.old terms.new }
{
    let in_first = is_within(terms, a.val, first)?;
    let in_second = is_within(terms, a.val, second)?;
    let val = terms.or(in_first, in_second)?;
    Ok(Opt { ok: a.ok, val })
}

fn is_within(terms: &mut Terms, a: u64, range: Ip) -> Result<u64, AllocError>
    requires { a < length terms.old }
    ensures ok { IfOk result (λ n. StandsFor terms.new n (within range (tree terms.old a))) }
    ensures kept { Keeps terms.old terms.new }
{
    let range = terms.literal(Literal::Ip(range))?;
    terms.in_range(a, range)
}
