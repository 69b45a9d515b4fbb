//! The states of the automaton that reads several patterns at once: one list of items.
ghost use Rattle.std.specs.Prelude.{◌≡◌};
ghost use Rattle.sc_languages.specs.Items.{is_end_item, stays, reaches, skips, refuses, dies, kept, is_star_item};

/// A part of a pattern, or the end of one.
#[derive(Clone, Copy, Debug, PartialEq, Eq)]
pub enum Item {
    /// Any characters, or none.
    Star,
    /// Just this character.
    Char(char),
    /// A pattern ends here; the sign says whether a text is to match it.
    End(bool),
}

impl Item {
    /// Whether this is the end of a pattern.
    pub(crate) fn is_end(&self) -> bool
        ensures { result ≡ is_end_item self.now }
    {
        match self {
            Item::Star | Item::Char(_) => false,
            Item::End(_) => true,
        }
    }

    /// Whether the item is active after a character: it was reached from the item before, or it is an active star.
    pub(crate) fn stays(&self, active: bool, reached: bool) -> bool
        ensures { result ≡ stays self.now active reached }
    {
        match self {
            Item::Star => reached | active,
            Item::Char(_) | Item::End(_) => reached,
        }
    }

    /// Whether the next item is active after a character, by this one.
    pub(crate) fn reaches(&self, c: char, active: bool, reached: bool) -> bool
        ensures { result ≡ reaches self.now c active reached }
    {
        match self {
            Item::Star => reached | active,
            Item::Char(wanted) => active & (c == *wanted),
            Item::End(_) => false,
        }
    }

    /// Whether the next item is active too without a character, as it is behind an active star.
    pub(crate) fn skips(&self, active: bool) -> bool
        ensures { result ≡ skips self.now active }
    {
        match self {
            Item::Star => active,
            Item::Char(_) | Item::End(_) => false,
        }
    }

    /// Whether a text that ends here denies the pattern its sign.
    pub(crate) fn refuses(&self, active: bool) -> bool
        ensures { result ≡ refuses self.now active }
    {
        match self {
            Item::Star | Item::Char(_) => false,
            Item::End(sign) => { if *sign { !active } else { active } }
        }
    }

    /// Whether this is a star.
    pub(crate) fn is_star(&self) -> bool
        ensures { result ≡ is_star_item self.now }
    {
        match self {
            Item::Star => true,
            Item::Char(_) | Item::End(_) => false,
        }
    }

    /// Whether the pattern that ends here can't get its sign any more: `any` is whether one of its items is active,
    /// `star` whether its last one is an active star.
    pub(crate) fn dies(&self, any: bool, star: bool) -> bool
        ensures { result ≡ dies self.now any star }
    {
        match self {
            Item::Star | Item::Char(_) => false,
            Item::End(sign) => { if *sign { !any } else { star } }
        }
    }

    /// What is known of a pattern, as the next item begins: at a pattern's end nothing is.
    pub(crate) fn keeps(&self, known: bool) -> bool
        ensures { result ≡ kept self.now known }
    {
        match self {
            Item::Star | Item::Char(_) => known,
            Item::End(_) => false,
        }
    }
}
