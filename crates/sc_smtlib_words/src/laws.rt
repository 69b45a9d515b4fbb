//! Laws of words and of characters.
ghost use Rattle.std.specs.Prelude.{◌≡◌, ℕ, List, true, flat_map};
ghost use Rattle.sc_smtlib_forms.specs.Characters.{label_character, text_character};
ghost use Rattle.sc_smtlib_words.specs.Characters.{is_text, label_in, text_in};
ghost use Rattle.sc_smtlib_words.specs.Cut.{lacks};
ghost use Rattle.sc_smtlib_words.specs.Words.{AreWords, IsDoubled, Word, spelled, words};

/// Words that are spelled are read back, and no newline stands in them.
#[tactic(auto, using(crate::proofs::WordLaws::words_again, crate::proofs::WordLaws::words_lack))]
pub fn word_laws()
    ensures back { (ws : List Word) → AreWords ws → words (spelled ws) ≡ ws }
    ensures one_line { (ws : List Word) → AreWords ws → lacks 10 (spelled ws) ≡ true }
{}

/// Characters that are written in a text or in a field's name are read back, and no newline stands in them.
#[tactic(auto, using(crate::proofs::CharacterLaws::text_back, crate::proofs::CharacterLaws::label_back, crate::proofs::CharacterLaws::text_doubled, crate::proofs::CharacterLaws::text_lacks))]
pub fn character_laws()
    ensures text { (cs : List ℕ) → is_text cs ≡ true → text_in (flat_map text_character cs) ≡ cs }
    ensures label { (cs : List ℕ) → is_text cs ≡ true → label_in (flat_map label_character cs) ≡ cs }
    ensures quotes { (cs : List ℕ) → is_text cs ≡ true → IsDoubled (flat_map text_character cs) }
    ensures one_line { (cs : List ℕ) → is_text cs ≡ true → lacks 10 (flat_map text_character cs) ≡ true }
{}
