//! Numbers and addresses from the truths of their bits.
ghost use Rattle.std.specs.Prelude.{◌≡◌, ◌<◌, Contains, map, IfOk};
ghost use Rattle.sc_model_values.specs.Parts.{IsOf};
ghost use Rattle.sc_bits.specs.Addresses.{ip_of};
ghost use Rattle.sc_bits.specs.Bits.{of_bits64};
ghost use Rattle.sc_term_definitions.specs.Definitions.{bit_count, counted};
ghost use Rattle.sc_model_values.specs.Models.{truth_in};
ghost use Rattle.sc_model_laws.specs.Assignments.{lit};
ghost use Rattle.sc_sorts.specs.declared.sort.Sort.TheVariants as sorts;
ghost use Rattle.sc_terms.specs.Folds.{bit_term};
ghost use Rattle.sc_terms.specs.Tables.{tree};
ghost use Rattle.sc_terms.specs.TreeSorts.{tree_sort};

use crate::parts::part;
use crate::truth::truth;
use sc_bits::{from_bits, integer_laws, ip_from_bits};
use sc_clauses::Assignment;
use sc_footprint::Problem;
use sc_ip::Ip;
use sc_lists::Seq;
use std::alloc::{AllocError, Global};

/// The bit at a place.
fn bit(problem: &Problem<'_>, m: &Assignment, term: u64, place: u64) -> bool
    requires closed { Contains problem.now.closed term }
    requires place { place < bit_count (tree_sort (tree problem.now.nodes term)) }
    ensures { result ≡ lit (truth_in problem.now m.now) (bit_term (tree problem.now.nodes term) place) }
{
    truth(problem, m, part(problem, term, place))
}

/// All bits of a number or an address, which has so many.
fn bits(
    alloc: Global,
    problem: &Problem<'_>,
    m: &Assignment,
    term: u64,
    count: u64,
) -> Result<Seq<bool>, AllocError>
    requires closed { Contains problem.now.closed term }
    requires count { count ≡ bit_count (tree_sort (tree problem.now.nodes term)) }
    ensures { IfOk result (λ bits. bits
        ≡ map (λ i. lit (truth_in problem.now m.now) (bit_term (tree problem.now.nodes term) i)) (counted 0 count)) }
{
    let mut bits = Seq::new(alloc);
    for place in 0..count {
        bits.push(bit(problem, m, term, place))?;
    }
    Ok(bits)
}

/// A number, or the ten-thousandths of a decimal number.
pub(crate) fn number(
    alloc: Global,
    problem: &Problem<'_>,
    m: &Assignment,
    term: u64,
) -> Result<i64, AllocError>
    requires closed { Contains problem.now.closed term }
    requires bits { 64 ≡ bit_count (tree_sort (tree problem.now.nodes term)) }
    ensures { IfOk result (λ n. n
        ≡ of_bits64 (λ i. lit (truth_in problem.now m.now) (bit_term (tree problem.now.nodes term) i))) }
{
    integer_laws();
    let bits = bits(alloc, problem, m, term, 64)?;
    Ok(from_bits(bits.as_slice()))
}

/// An address.
pub(crate) fn address(
    alloc: Global,
    problem: &Problem<'_>,
    m: &Assignment,
    term: u64,
) -> Result<Ip, AllocError>
    requires { IsOf problem.now sorts.Ip term }
    ensures { IfOk result (λ ip. ip
        ≡ ip_of (λ i. lit (truth_in problem.now m.now) (bit_term (tree problem.now.nodes term) i))) }
{
    let bits = bits(alloc, problem, m, term, 257)?;
    Ok(ip_from_bits(bits.as_slice()))
}
