//! Instances of the rules on strings, by the numbers of closed terms, the place of a pattern,
//! counted from 0, and a sign for each pattern.
use sc_lists::Seq;

/// An instance of a rule on strings.
#[derive(Drop)]
pub enum StringRule {
    /// a, b, p: equal strings match the same patterns.
    St1(u64, u64, u64),
    /// Signs of all patterns, and strings: they can't all be told apart where fewer texts have
    /// these signs than there are of them.
    St2(Seq<Option<bool>>, Seq<u64>),
    /// The same, where some patterns need not be asked.
    St3(Seq<Option<bool>>, Seq<u64>),
}
