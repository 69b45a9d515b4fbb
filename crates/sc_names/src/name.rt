//! Names of types.
ghost use Rattle.std.specs.Prelude.{◌≡◌, IfOk};

use sc_lists::Text;
use std::alloc::{AllocError, Global};
use std::marker::Model;

/// The name of a type, such as `User` or `Shop::User`, by its text.
#[derive(Debug, PartialEq, Eq, PartialOrd, Ord, Drop)]
pub struct Name {
    text: Text,
}

impl Model for Name {
    ghost use Rattle.std.specs.Prelude.{ℕ, List};

    ghost Value = { List ℕ };

    ghost view = { λ n. n.text };

    ghost inverse = { λ t. record { text = t } };
}

impl Name {
    /// The name of this text.
    pub fn from_text(text: Text) -> Name
        ensures { result ≡ text }
    {
        Name { text }
    }

    /// The name's text.
    pub fn as_str(&self) -> &str
        ensures { result.now ≡ self.now }
    {
        self.text.as_str()
    }

    /// A copy, which equals the name.
    pub fn try_clone(&self, alloc: Global) -> Result<Name, AllocError>
        ensures { IfOk result (λ n. n ≡ self.now) }
    {
        Ok(Name {
            text: self.text.try_clone(alloc)?,
        })
    }
}
