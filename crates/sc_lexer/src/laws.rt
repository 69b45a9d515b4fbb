//! What is true of the relations that the calls here promise.
ghost use Rattle.std.specs.Prelude.{◌≡◌, ℕ, List, Bool};
ghost use Rattle.std.specs.Str.{IsUtf8, chars};
ghost use Rattle.std.specs.declared.option.Option.TheVariants.{Some};
ghost use Rattle.sc_lexer.specs.declared.piece.Piece.{Piece};
ghost use Rattle.sc_lexer.specs.declared.token.Kind.TheVariants.{Str};
ghost use Rattle.sc_lexer.specs.Escapes.{IsSpelled};
ghost use Rattle.sc_lexer.specs.Pieces.{quoted, Spells};
ghost use Rattle.sc_lexer.specs.Tokens.{kind_of};

/// A string stands for one text.
#[tactic(auto, using(crate::proofs::MeaningLaws::some_spelling, crate::proofs::MeaningLaws::one_spelling))]
pub fn spelling_laws()
    // The characters between the quotes of a string in which each backslash begins an escape stand for something.
    ensures some { (like : Bool) (text : List ℕ) → kind_of text ≡ Some Str → IsUtf8 text → IsSpelled like text
        → (ps : List Piece) × Spells (chars (quoted text)) ps }
    // And for nothing else.
    ensures one { (cs : List ℕ) (ps qs : List Piece) → Spells cs ps → Spells cs qs → ps ≡ qs }
{}
