//! What is known of an atom.
ghost use Rattle.std.specs.Prelude.{◌≡◌, ◌↔◌, IsTrue};
ghost use Rattle.sc_propagation.specs.Readings.{truth_of};
ghost use Rattle.sc_propagation.specs.Trails.{set_before};
ghost use Rattle.sc_propagation.specs.Rooms.{cell_value};

/// What is known of an atom, and from which place of the trail on.
#[derive(Clone, Copy)]
pub enum Cell {
    /// It is free.
    Free,
    /// It was decided on.
    Decided {
        negated: bool,
        place: usize,
    },
    /// It was implied by the clause at `reason`, whose other literals were false.
    Implied {
        negated: bool,
        place: usize,
        reason: usize,
    },
}

/// The truth of a literal.
#[derive(Clone, Copy)]
pub enum Truth {
    True,
    False,
    Open,
}

/// The truth of an atom, or of its negation, by the atom's cell.
pub fn truth_of(cell: Cell, negated: bool) -> Truth
    ensures { result ≡ truth_of cell negated }
{
    match cell {
        Cell::Free => Truth::Open,
        Cell::Decided { negated: sign, .. } => {
            if sign == negated {
                Truth::True
            } else {
                Truth::False
            }
        }
        Cell::Implied { negated: sign, .. } => {
            if sign == negated {
                Truth::True
            } else {
                Truth::False
            }
        }
    }
}

/// Whether a cell has this sign from a place before `end` on.
pub fn is_set_before(cell: Cell, end: usize, negated: bool) -> bool
    ensures { result ≡ set_before cell end negated }
{
    match cell {
        Cell::Free => false,
        Cell::Decided {
            negated: sign,
            place,
        } => sign == negated && place < end,
        Cell::Implied {
            negated: sign,
            place,
            ..
        } => sign == negated && place < end,
    }
}

/// Whether a cell has no value.
pub fn is_free(cell: Cell) -> bool
    ensures { IsTrue result ↔ cell ≡ Cell.Free }
{
    match cell {
        Cell::Free => true,
        Cell::Decided { .. } | Cell::Implied { .. } => false,
    }
}

/// The value of a cell's atom, if it has one.
pub fn value_of(cell: Cell) -> Option<bool>
    ensures { result ≡ cell_value cell }
{
    match cell {
        Cell::Free => None,
        Cell::Decided { negated, .. } | Cell::Implied { negated, .. } => Some(!negated),
    }
}
