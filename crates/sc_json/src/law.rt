//! Laws of the trees of files.
ghost use Rattle.std.specs.Prelude.{◌≡◌, ◌⊎◌, ℕ, List};
ghost use Rattle.serde_json.specs.Data.{Data};
ghost use Rattle.sc_json.specs.Trees.{HasTree, IsTidy};

/// Bytes are the text of one tree or of none. In a tree the names of an object's members ascend by
/// their bytes, each once; they and the strings are texts.
pub fn tree_laws()
    ensures one { (bytes : List ℕ) (c d : Data) → HasTree bytes c → HasTree bytes d → c ≡ d }
    ensures either { (bytes : List ℕ) → ((d : Data) × HasTree bytes d) ⊎ ((d : Data) → ¬ HasTree bytes d) }
    ensures tidy { (bytes : List ℕ) (d : Data) → HasTree bytes d → IsTidy d }
{}
