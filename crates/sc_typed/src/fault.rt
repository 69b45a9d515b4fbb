//! Why an expression has no type.
use sc_ast::Place;
use sc_lists::Fault;
use thiserror::Error;

/// The rule of typing that an expression breaks, in the order of the rules.
#[derive(Clone, Copy, Debug, PartialEq, Eq)]
pub enum TypeRule {
    /// An operand isn't of a Boolean type.
    NotBoolean,
    /// Two types have no type in common.
    NoJoin,
    /// An operand is no whole number.
    NotLong,
    /// An operand is no entity.
    NotEntity,
    /// The right side of `in` is neither an entity nor a set of entities of one type.
    NotEntityOrSet,
    /// What an attribute is asked of is neither a record nor an entity.
    NotObject,
    /// An attribute that is read isn't declared.
    NoAttribute,
    /// An optional attribute is read where it may be absent.
    MaybeAbsent,
    /// An operand is no text.
    NotString,
    /// A tag is read of an entity of a type without tags.
    NoTags,
    /// A tag is read where it may be absent.
    TagMaybeAbsent,
    /// An operand is no set.
    NotSet,
    /// A set is written without members.
    EmptySet,
    /// `decimal` or `ip` is called with anything but a literal text that reads.
    BadLiteral,
    /// An operand is no decimal number.
    NotDecimal,
    /// An operand is no address.
    NotIp,
}

/// Why an expression has no type: the rule that it breaks, and where.
#[derive(Clone, Copy, Debug, PartialEq, Eq, Error)]
#[error("ill-typed: {rule:?} at {}", at.offset)]
pub struct TypeFault {
    /// The rule.
    pub rule: TypeRule,
    /// The place of the operand of the wrong kind, or else of the expression.
    pub at: Place,
}

impl From<TypeFault> for Fault<TypeFault> {
    ghost use Rattle.std.specs.Prelude.{◌≡◌};
    ghost use Rattle.sc_lists.specs.declared.fault.Fault.TheVariants.{Told};

    ghost from_gives = { λ error fault. fault ≡ Told error };

    fn from(error: TypeFault) -> Fault<TypeFault> {
        Fault::Told(error)
    }
}
