//! Why a policy file isn't read.
use sc_ast::Place;
use thiserror::Error;

/// The first fault of a policy file. A place is counted in bytes from the file's begin.
#[derive(Clone, Copy, Debug, PartialEq, Eq, Error)]
pub enum PolicyFault {
    /// The bytes there are no UTF-8.
    #[error("ill-formed UTF-8")]
    BadUtf8(Place),
    /// No token begins there; of a string that isn't closed it is the opening quote.
    #[error("no token")]
    BadToken(Place),
    /// The backslash there begins no escape.
    #[error("no escape")]
    BadEscape(Place),
    /// No policy file goes on with the token there.
    #[error("unexpected token")]
    Unexpected(Place),
    /// The file ends where no policy file does.
    #[error("unexpected end")]
    UnexpectedEnd,
    /// There are more than 10,000 policies.
    #[error("too many policies")]
    TooManyPolicies,
    /// The slot of a template stands there.
    #[error("template")]
    Template(Place),
    /// The token there lies too deep.
    #[error("too deep")]
    TooDeep(Place),
    /// The number there has more than 64 bits.
    #[error("number out of range")]
    IntRange(Place),
    /// The key there is one of the same record already.
    #[error("duplicate key")]
    DuplicateKey(Place),
    /// What the parenthesis there closes calls nothing that there is.
    #[error("bad call")]
    BadCall(Place),
}
