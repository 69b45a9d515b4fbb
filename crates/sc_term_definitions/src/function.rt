//! How a truth value may be defined.
ghost use Rattle.std.specs.Prelude.{◌≡◌, false, get_or};
ghost use Rattle.sc_bits.specs.Orders.{is_below as below};
ghost use Rattle.sc_term_definitions.specs.Functions.{value_of, is_turned};

/// What a truth table makes of its inputs. It has as many inputs as the function looks at.
#[derive(Clone, Copy, Debug)]
pub enum Function {
    /// The one input itself.
    Itself,
    /// Whether both are true.
    Both,
    /// Whether one is true.
    Either,
    /// Whether two are alike.
    Same,
    /// The second where the first is true, and else the third.
    Chosen,
    /// Whether an odd number of three are true.
    Odd,
    /// Whether at least two of three are true.
    Majority,
    /// Of the signs of two numbers and of their sum in 64 bits, whether the exact sum leaves these.
    SumOverflows,
    /// The same of a difference.
    DifferenceOverflows,
    /// Of the highest bits of two numbers, and whether for the lower bits the first is less: whether
    /// it is less.
    Below,
    /// The same where the highest bits are signs.
    SignedBelow,
}

/// How a truth value is defined by others, its inputs.
#[derive(Clone, Copy, Debug)]
pub enum Shape {
    /// It is what a function makes of the inputs. Of a difference the second input is negated: then
    /// the flag is set.
    Table(Function, bool),
    /// Whether all inputs are true.
    All,
    /// Whether some input is false.
    NotAll,
    /// It is this, and has no inputs.
    Fixed(bool),
    /// Nothing defines it, and it has no inputs.
    Free,
}

impl Function {
    /// What the function makes of truth values; those past the end count as false.
    pub fn value(self, inputs: &[bool]) -> bool
        ensures { result ≡ value_of self inputs.now }
    {
        let (first, second, third) = (at(inputs, 0), at(inputs, 1), at(inputs, 2));
        match self {
            Function::Itself => first,
            Function::Both => first && second,
            Function::Either => first || second,
            Function::Same => first == second,
            Function::Chosen => { if first { second } else { third } }
            Function::Odd => (first != second) != third,
            Function::Majority => {
                if first {
                    second || third
                } else {
                    second && third
                }
            }
            Function::SumOverflows => first == second && first != third,
            Function::DifferenceOverflows => first != second && first != third,
            Function::Below => is_below(first, second, third),
            Function::SignedBelow => is_below(second, first, third),
        }
    }
}

/// The truth value at a place, and false past the end.
fn at(inputs: &[bool], place: usize) -> bool
    ensures { result ≡ get_or inputs.now place false }
{
    match inputs.get(place) {
        Some(b) => *b,
        None => false,
    }
}

/// Of two numbers with these highest bits the first is less, if for the lower bits this is told.
fn is_below(first: bool, second: bool, lower: bool) -> bool
    ensures { result ≡ below first second lower }
{
    (!first && second) || (first == second && lower)
}

impl Shape {
    /// Whether the input at a place, counted from 0, is negated.
    pub fn is_turned(self, place: u64) -> bool
        ensures { result ≡ is_turned self place }
    {
        match self {
            Shape::Table(_, true) => place == 1,
            _ => false,
        }
    }
}
