//! Operators, in the order of the grammar. Methods and functions that are called are operators too.

/// An operator with one operand.
#[derive(Clone, Copy, Debug, PartialEq, Eq)]
pub enum UnaryOperator {
    /// `!a`: the other truth value.
    Not,
    /// `-a`: the number below zero.
    Negate,
    /// `a.isEmpty()`: whether a set has no member.
    IsEmpty,
    /// `a.isIpv4()`: whether an address is of version 4.
    IsIpv4,
    /// `a.isIpv6()`: whether an address is of version 6.
    IsIpv6,
    /// `a.isLoopback()`: whether an address is one of the own host.
    IsLoopback,
    /// `a.isMulticast()`: whether an address is one of a group.
    IsMulticast,
    /// `decimal(a)`: the decimal number that a text spells.
    Decimal,
    /// `ip(a)`: the address that a text spells.
    Ip,
}

/// An operator with two operands, of which the left one is evaluated first.
#[derive(Clone, Copy, Debug, PartialEq, Eq)]
pub enum BinaryOperator {
    /// `a < b`.
    Less,
    /// `a <= b`.
    LessOrEqual,
    /// `a > b`.
    Greater,
    /// `a >= b`.
    GreaterOrEqual,
    /// `a == b`.
    Equal,
    /// `a in b`: whether an entity is another one, or in it.
    In,
    /// `a + b`.
    Add,
    /// `a - b`.
    Subtract,
    /// `a * b`.
    Multiply,
    /// `a.contains(b)`: whether a set has a member.
    Contains,
    /// `a.containsAll(b)`: whether a set has all members of another one.
    ContainsAll,
    /// `a.containsAny(b)`: whether two sets have a member in common.
    ContainsAny,
    /// `a.hasTag(b)`: whether an entity has a tag.
    HasTag,
    /// `a.getTag(b)`: the value of an entity's tag.
    GetTag,
    /// `a.lessThan(b)`, of decimal numbers.
    LessThan,
    /// `a.lessThanOrEqual(b)`, of decimal numbers.
    LessThanOrEqual,
    /// `a.greaterThan(b)`, of decimal numbers.
    GreaterThan,
    /// `a.greaterThanOrEqual(b)`, of decimal numbers.
    GreaterThanOrEqual,
    /// `a.isInRange(b)`: whether a range of addresses is within another one.
    IsInRange,
}
