//! Which terms their constructors leave as they are.
ghost use Rattle.std.specs.Prelude.{◌≡◌, ◌<◌, length};
ghost use Rattle.sc_terms.specs.Folds.{constant as constant_of, under_not as negated_by};
ghost use Rattle.sc_terms.specs.Tables.{tree};
ghost use Rattle.sc_term_laws.specs.Unfolded as unfolded;

use sc_lists::Text;
use sc_terms::Terms;

/// Of a negation.
pub(crate) fn stays_not(terms: &Terms, a: u64) -> bool
    requires { a < length terms.now }
    ensures { result ≡ unfolded.stays_not (tree terms.now a) }
{
    is_no_truth(terms, a) && is_no_negation(terms, a)
}

/// Of two terms of which both are true, or one is.
pub(crate) fn stays_two(terms: &Terms, a: u64, b: u64) -> bool
    requires a_in { a < length terms.now }
    requires b_in { b < length terms.now }
    ensures { result ≡ unfolded.stays_two (tree terms.now a) (tree terms.now b) }
{
    is_no_truth(terms, a) && (is_no_truth(terms, b) && !terms.is_same(a, b))
}

/// Of a choice.
pub(crate) fn stays_choice(terms: &Terms, c: u64, a: u64, b: u64) -> bool
    requires c_in { c < length terms.now }
    requires a_in { a < length terms.now }
    requires b_in { b < length terms.now }
    ensures { result ≡ unfolded.stays_choice (tree terms.now c) (tree terms.now a) (tree terms.now b) }
{
    is_no_truth(terms, c) && !terms.is_same(a, b)
}

/// Of an equation.
pub(crate) fn stays_equal(terms: &Terms, a: u64, b: u64) -> bool
    requires a_in { a < length terms.now }
    requires b_in { b < length terms.now }
    ensures { result ≡ unfolded.stays_equal (tree terms.now a) (tree terms.now b) }
{
    stays_two(terms, a, b) && (has_other(terms, a, b) && !terms.compare(a, b).is_gt())
}

/// Whether one of two terms is no literal.
fn has_other(terms: &Terms, a: u64, b: u64) -> bool
    requires a_in { a < length terms.now }
    requires b_in { b < length terms.now }
    ensures { result ≡ unfolded.has_other (tree terms.now a) (tree terms.now b) }
{
    stays_literal(terms, a) || stays_literal(terms, b)
}

/// Of a field.
pub(crate) fn stays_field(terms: &Terms, name: &Text, a: u64) -> bool
    requires { a < length terms.now }
    ensures { result ≡ unfolded.stays_field name.now (tree terms.now a) }
{
    match terms.component(a, name) {
        Some(_) => false,
        None => true,
    }
}

/// Of what is told of an option.
pub(crate) fn stays_option(terms: &Terms, a: u64) -> bool
    requires { a < length terms.now }
    ensures { result ≡ unfolded.stays_option (tree terms.now a) }
{
    match terms.absent(a) {
        Some(_) => false,
        None => true,
    }
}

/// Of a bit, or of a text that is to match a pattern.
pub(crate) fn stays_literal(terms: &Terms, a: u64) -> bool
    requires { a < length terms.now }
    ensures { result ≡ unfolded.stays_literal (tree terms.now a) }
{
    match terms.literal_at(a) {
        Some(_) => false,
        None => true,
    }
}

fn is_no_truth(terms: &Terms, a: u64) -> bool
    requires { a < length terms.now }
    ensures { result ≡ unfolded.lacks (constant_of (tree terms.now a)) }
{
    match terms.constant(a) {
        Some(_) => false,
        None => true,
    }
}

fn is_no_negation(terms: &Terms, a: u64) -> bool
    requires { a < length terms.now }
    ensures { result ≡ unfolded.lacks (negated_by (tree terms.now a)) }
{
    match terms.under_not(a) {
        Some(_) => false,
        None => true,
    }
}
