//! The clauses of a problem in items: one for each atom, by its definition, and one for each closed
//! term, of which addresses have clauses. A literal of a clause is read at its place, so that clauses
//! are told, counted and tested without making them.
ghost use Rattle.std.specs.Prelude.{◌≡◌, ◌<◌, ◌≤◌, ◌^◌, length, get_or, [], false};
ghost use Rattle.sc_clauses.specs.Clauses.{positive};
ghost use Rattle.sc_sorts.specs.declared.sort.Sort.{out-Sort};
ghost use Rattle.sc_terms.specs.Tables.{tree};
ghost use Rattle.sc_term_definitions.specs.Functions.{rows, value_of};
ghost use Rattle.sc_footprint.specs.Definitions.{is_address as address, is_address_in as address_sort, differs as difference, has_value as agreement};
ghost use Rattle.sc_footprint.specs.Problems.{Posed, closed_terms, number_among};
ghost use Rattle.th_defs.specs.Items.{HasInputs, IsItem, address_of, is_unwritten as unwritten, clause_at, clauses_in, companion_or, conjunction_literals, definition_of, input_literal, item_at as the_item, item_clauses, item_count as count_of, later_bit as bit_of_later, literal_of_address, literal_of_conjunction, literal_of_definition, literal_of_row, literals_in};

use sc_clauses::{Lit, negation};
use sc_footprint::Problem;
use sc_sorts::{Leaf, Node, Sort};
use sc_term_definitions::{Function, Shape};

/// What clauses come from.
#[derive(Clone, Copy, Debug)]
pub(crate) enum Item {
    /// Nothing.
    Nothing,
    /// The definition of a closed term of this number: how it is defined, the literal of the term,
    /// and how many inputs it has.
    Definition(u64, Shape, Lit, u64),
    /// The address of this number.
    Address(u64),
}

/// How many items there are.
pub(crate) fn item_count(problem: &Problem<'_>) -> u64
    ensures { result ≡ count_of problem.now }
{
    problem.laws();
    problem.atom_count() + problem.closed_count()
}

/// The item at a place, counted from 0: first the atoms, then the closed terms.
pub(crate) fn item_at(problem: &Problem<'_>, place: u64) -> Item
    requires { place < count_of problem.now }
    ensures is { result ≡ the_item problem.now place }
    ensures item { IsItem result }
{
    problem.laws();
    let atoms = problem.atom_count();
    if place < atoms {
        match problem.atom(place + 1) {
            Some(term) => definition(problem, term),
            None => Item::Nothing,
        }
    } else {
        address(problem, place - atoms + 1)
    }
}

/// The definition of an atom.
fn definition(problem: &Problem<'_>, term: u64) -> Item
    requires { term < length problem.now.nodes }
    ensures is { result ≡ definition_of problem.now (tree problem.now.nodes term) }
    ensures item { IsItem result }
{
    Item::Definition(
        number(problem, term),
        problem.shape(term),
        problem.literal(term),
        problem.input_count(term),
    )
}

/// The number of a closed term; 0 of a term that is none.
fn number(problem: &Problem<'_>, term: u64) -> u64
    requires { term < length problem.now.nodes }
    ensures { result ≡ number_among (closed_terms problem.now) (tree problem.now.nodes term) }
{
    problem.laws();
    problem.terms().laws();
    problem.number_of(term).unwrap_or(0)
}

/// The address of a closed term, if it is one that isn't written.
fn address(problem: &Problem<'_>, number: u64) -> Item
    ensures is { result ≡ address_of problem.now number }
    ensures item { IsItem result }
{
    match problem.term(number) {
        Some(term) => {
            if is_address(problem, term) {
                Item::Address(number)
            } else {
                Item::Nothing
            }
        }
        None => Item::Nothing,
    }
}

/// Whether a term is an address that isn't written.
fn is_address(problem: &Problem<'_>, term: u64) -> bool
    requires { term < length problem.now.nodes }
    ensures { result ≡ address (tree problem.now.nodes term) }
{
    let terms = problem.terms();
    is_ip(terms.sort(term)) && is_unwritten(terms.node(term))
}

/// Whether a sort is that of addresses.
fn is_ip(sort: &Sort) -> bool
    ensures { result ≡ address_sort (out-Sort sort.now) }
{
    matches!(sort, Sort::Ip)
}

/// Whether a node is no literal.
fn is_unwritten(node: &Node) -> bool
    ensures { result ≡ unwritten node.now }
{
    !matches!(node, Node::Leaf(Leaf::Literal(_)))
}

/// The literal of a term that goes with the closed term of a number.
fn companion(problem: &Problem<'_>, number: u64, place: u64) -> Lit
    ensures { result ≡ companion_or problem.now number place }
{
    match problem.companion(number, place) {
        Some(term) => problem.literal(term),
        None => Lit {
            atom: 1,
            negated: false,
        },
    }
}

/// The literal of an input, negated where the table is of a difference and it is the second.
fn input(problem: &Problem<'_>, number: u64, shape: Shape, place: u64) -> Lit
    ensures { result ≡ input_literal problem.now number shape place }
{
    let literal = companion(problem, number, place);
    if shape.is_turned(place) {
        negation(literal)
    } else {
        literal
    }
}

/// How many rows the truth table of so many inputs has, of which there are at most three.
fn row_count(count: u64) -> u64
    ensures { count ≤ 3 → result ≡ 2 ^ count }
{
    match count {
        0 => 1,
        1 => 2,
        2 => 4,
        _ => 8,
    }
}

/// How many clauses an item has, those too that are dropped.
pub(crate) fn clause_count(item: Item) -> u64
    requires { IsItem item }
    ensures { (p : Posed) → result ≡ length (item_clauses p item) }
{
    match item {
        Item::Nothing => 0,
        Item::Definition(_, shape, _, count) => definition_count(shape, count),
        Item::Address(_) => 319,
    }
}

/// How many clauses a definition by so many inputs has.
fn definition_count(shape: Shape, count: u64) -> u64
    requires { HasInputs shape count }
    ensures { result ≡ clauses_in shape count }
{
    match shape {
        Shape::Table(_, _) => row_count(count),
        Shape::All => count + 1,
        Shape::NotAll => count + 1,
        Shape::Fixed(_) => 1,
        Shape::Free => 0,
    }
}

/// How many literals a clause of an item has.
pub(crate) fn clause_length(item: Item, clause: u64) -> u64
    requires { IsItem item }
    ensures { (p : Posed) → clause < length (item_clauses p item) → result ≡ length (clause_at p item clause) }
{
    match item {
        Item::Nothing => 0,
        Item::Definition(_, shape, _, count) => definition_length(shape, count, clause),
        Item::Address(_) => 2,
    }
}

/// How many literals a clause of a definition by so many inputs has.
fn definition_length(shape: Shape, count: u64, clause: u64) -> u64
    requires { HasInputs shape count }
    ensures { result ≡ literals_in shape count clause }
{
    match shape {
        Shape::Table(_, _) => count + 1,
        Shape::All => conjunction_length(clause, count),
        Shape::NotAll => conjunction_length(clause, count),
        Shape::Fixed(_) => 1,
        Shape::Free => 0,
    }
}

/// Of 'all inputs' each clause but the last has two literals.
fn conjunction_length(clause: u64, count: u64) -> u64
    requires { count ≤ 257 }
    ensures { result ≡ conjunction_literals count clause }
{
    if clause < count { 2 } else { count + 1 }
}

/// The literal at a place of a clause of an item, both counted from 0.
pub(crate) fn literal_at(problem: &Problem<'_>, item: Item, clause: u64, place: u64) -> Lit
    requires item { IsItem item }
    requires clause { clause < length (item_clauses problem.now item) }
    requires place { place < length (clause_at problem.now item clause) }
    ensures { result ≡ get_or (clause_at problem.now item clause) place (positive 1) }
{
    match item {
        Item::Nothing => Lit {
            atom: 1,
            negated: false,
        },
        Item::Definition(number, shape, whole, count) => {
            definition_literal(problem, number, shape, whole, count, clause, place)
        }
        Item::Address(number) => address_literal(problem, number, clause, place),
    }
}

/// The literal at a place of a clause of a definition.
fn definition_literal(
    problem: &Problem<'_>,
    number: u64,
    shape: Shape,
    whole: Lit,
    count: u64,
    clause: u64,
    place: u64,
) -> Lit
    requires inputs { HasInputs shape count }
    requires clause { clause < clauses_in shape count }
    ensures { result ≡ literal_of_definition problem.now number shape whole count clause place }
{
    match shape {
        Shape::Table(function, _) => row_literal(
            problem, number, shape, function, whole, count, clause, place,
        ),
        Shape::All => conjunction_literal(problem, number, whole, count, clause, place),
        Shape::NotAll => {
            conjunction_literal(problem, number, negation(whole), count, clause, place)
        }
        Shape::Fixed(value) => has_value(whole, value),
        Shape::Free => whole,
    }
}

/// The value of an input in a row, counted in binary with the first input highest; false past the
/// last input.
fn row_bit(row: u64, count: u64, place: u64) -> bool
    requires few { count ≤ 3 }
    requires row { row < 2 ^ count }
    ensures { result ≡ get_or (get_or (rows count) row []) place false }
{
    if place >= count {
        return false;
    }
    match count - 1 - place {
        0 => row % 2 == 1,
        1 => (row / 2) % 2 == 1,
        _ => (row / 4) % 2 == 1,
    }
}

/// What a function makes of a row's values.
fn row_value(function: Function, row: u64, count: u64) -> bool
    requires few { count ≤ 3 }
    requires row { row < 2 ^ count }
    ensures { result ≡ value_of function (get_or (rows count) row []) }
{
    function.value(&[
        row_bit(row, count, 0),
        row_bit(row, count, 1),
        row_bit(row, count, 2),
    ])
}

/// The literal that an input differs from a value.
fn differs(literal: Lit, value: bool) -> Lit
    ensures { result ≡ difference literal value }
{
    if value { negation(literal) } else { literal }
}

/// The literal that a term has a value.
fn has_value(literal: Lit, value: bool) -> Lit
    ensures { result ≡ agreement literal value }
{
    if value { literal } else { negation(literal) }
}

/// A literal of a row: that an input differs from the row, or last that the whole has its value.
fn row_literal(
    problem: &Problem<'_>,
    number: u64,
    shape: Shape,
    function: Function,
    whole: Lit,
    count: u64,
    row: u64,
    place: u64,
) -> Lit
    requires few { count ≤ 3 }
    requires row { row < 2 ^ count }
    ensures { result ≡ literal_of_row problem.now number shape function whole count row place }
{
    if place < count {
        differs(
            input(problem, number, shape, place),
            row_bit(row, count, place),
        )
    } else {
        has_value(whole, row_value(function, row, count))
    }
}

/// A literal of what says that a literal is whether all inputs are true.
fn conjunction_literal(
    problem: &Problem<'_>,
    number: u64,
    whole: Lit,
    count: u64,
    clause: u64,
    place: u64,
) -> Lit
    ensures { result ≡ literal_of_conjunction problem.now number whole count clause place }
{
    if clause < count {
        if place == 0 {
            negation(whole)
        } else {
            companion(problem, number, clause)
        }
    } else if place == 0 {
        whole
    } else {
        negation(companion(problem, number, place - 1))
    }
}

/// A literal of the clauses of an address: first that the prefix is so many first places, then that
/// a short address has neither prefix nor bits from place 32 on.
fn address_literal(problem: &Problem<'_>, number: u64, clause: u64, place: u64) -> Lit
    requires { clause < 319 }
    ensures { result ≡ literal_of_address problem.now number clause place }
{
    if clause < 127 {
        if place == 0 {
            negation(companion(problem, number, 2 + clause))
        } else {
            companion(problem, number, 1 + clause)
        }
    } else if place == 0 {
        companion(problem, number, 0)
    } else {
        negation(companion(problem, number, later_bit(clause - 127)))
    }
}

/// The bit that a clause on short addresses speaks of, these counted from 0.
fn later_bit(clause: u64) -> u64
    requires { clause < 192 }
    ensures { result ≡ bit_of_later clause }
{
    if clause % 2 == 0 {
        1 + (32 + clause / 2)
    } else {
        129 + (32 + clause / 2)
    }
}
