//! The two ways to say which texts a pattern matches agree.
ghost use Rattle.std.specs.Prelude.{◌↔◌, ℕ, List, IsTrue};
ghost use Rattle.sc_pattern.specs.declared.part.Part.{Part as AnyPart};
ghost use Rattle.sc_pattern.specs.Language.{IsMatch, is_match};

/// The test passes exactly the texts that the pattern matches.
pub fn pattern_laws()
    ensures { (parts : List AnyPart) (text : List ℕ) → IsTrue (is_match parts text) ↔ IsMatch parts text }
{}
