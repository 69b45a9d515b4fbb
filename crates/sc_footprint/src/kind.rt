//! Kinds of closed terms.
ghost use Rattle.std.specs.Prelude.{◌≡◌};
ghost use Rattle.sc_footprint.specs.Kinds.{place as place_of, same_kind};

/// What rules go over: closed terms of a sort, or what tells of entities of a sort.
#[derive(Clone, Copy)]
pub enum Kind {
    /// All terms of a sort.
    Any,
    /// The terms of a sort that may be members of sets.
    Candidate,
    /// The attributes of entities.
    Attributes,
    /// The ancestors of entities.
    Ancestors,
    /// The keys of entities' tags.
    Keys,
    /// Entities' tags.
    Tag,
}

impl Kind {
    fn place(self) -> u64
        ensures { result ≡ place_of self }
    {
        match self {
            Kind::Any => 0,
            Kind::Candidate => 1,
            Kind::Attributes => 2,
            Kind::Ancestors => 3,
            Kind::Keys => 4,
            Kind::Tag => 5,
        }
    }

    pub(crate) fn is_same(self, other: Kind) -> bool
        ensures { result ≡ same_kind self other }
    {
        self.place() == other.place()
    }
}
