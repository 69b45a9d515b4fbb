//! Operators between two operands.
/// An operator between two operands.
#[derive(Clone, Copy, PartialEq, Eq)]
pub enum Operator {
    /// `||`
    Or,
    /// `&&`
    And,
    /// `<`
    Less,
    /// `<=`
    LessOrEqual,
    /// `>`
    Greater,
    /// `>=`
    GreaterOrEqual,
    /// `==`
    Equal,
    /// `!=`
    NotEqual,
    /// `in`
    In,
    /// `+`
    Add,
    /// `-`
    Subtract,
    /// `*`
    Multiply,
}

/// How tightly an operator binds, from the loosest on.
#[derive(Clone, Copy, PartialEq, Eq)]
pub enum Level {
    /// `||`
    Or,
    /// `&&`
    And,
    /// Comparisons, and `in`.
    Relation,
    /// `+` and `-`
    Add,
    /// `*`
    Multiply,
}

/// What ends an expression that is read inside of something.
#[derive(Clone, Copy)]
pub enum Close {
    /// `then`
    Then,
    /// `else`
    Else,
    /// `)`
    Parenthesis,
    /// `]`
    Bracket,
    /// `}`
    Brace,
}
