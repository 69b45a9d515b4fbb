//! How far reading has come, and how deep the next token lies.
ghost use Rattle.std.specs.Prelude.{◌≡◌, ◌+◌, ◌<◌, ◌^◌};
ghost use Rattle.sc_lexemes.specs.Depth.{fits, next, past, inside, back, deeper, outside};

/// How far reading has come, and how deep the next token lies.
#[derive(Clone, Copy)]
pub struct Cursor {
    /// The number of tokens that are read.
    pub at: usize,
    /// How many expressions enclose the next token.
    pub enclosing: usize,
    /// How many constructs are open at the next token: the expressions that enclose it, the
    /// operators, prefixes, accesses and parts of `has` that each of these already holds at its own
    /// level, and the earlier clauses of the policy.
    pub depth: usize,
}

impl Cursor {
    /// Where a policy begins, outside all expressions.
    pub fn outside(at: usize) -> Cursor
        ensures { result ≡ outside at }
    {
        Cursor {
            at,
            enclosing: 0,
            depth: 0,
        }
    }

    /// Whether the next token lies within the limits.
    pub fn fits(self) -> bool
        ensures { result ≡ fits self }
    {
        self.enclosing <= 100 && self.depth <= 1_000
    }

    /// After a token that doesn't count.
    pub fn next(self) -> Cursor
        requires { self.at + 1 < 2 ^ 64 }
        ensures { result ≡ next self }
    {
        Cursor {
            at: self.at + 1,
            enclosing: self.enclosing,
            depth: self.depth,
        }
    }

    /// After an operator, a prefix, a dot, an opening bracket of an access, `has`, `like` or `is`.
    pub fn past(self) -> Cursor
        requires { self.at + 1 < 2 ^ 64 }
        ensures { result ≡ past self }
    {
        Cursor {
            at: self.at + 1,
            enclosing: self.enclosing,
            depth: self.depth.saturating_add(1),
        }
    }

    /// Inside an expression that begins here.
    pub fn inside(self) -> Cursor
        ensures { result ≡ inside self }
    {
        Cursor {
            at: self.at,
            enclosing: self.enclosing.saturating_add(1),
            depth: self.depth.saturating_add(1),
        }
    }

    /// Outside again, where the inner expression was read up to a place.
    pub fn back(self, inner: Cursor) -> Cursor
        ensures { result ≡ back self inner }
    {
        Cursor {
            at: inner.at,
            enclosing: self.enclosing,
            depth: self.depth,
        }
    }

    /// Behind a clause of a policy.
    pub fn deeper(self) -> Cursor
        ensures { result ≡ deeper self }
    {
        Cursor {
            at: self.at,
            enclosing: self.enclosing,
            depth: self.depth.saturating_add(1),
        }
    }
}
