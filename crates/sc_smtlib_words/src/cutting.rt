//! Cuts a text at its newlines, and compares two texts.
ghost use Rattle.std.specs.Prelude.{◌≡◌, ◌++◌, ◌∷◌, true, nat_eq, MatchOption};
ghost use Rattle.std.specs.List.{common_prefix_len};
ghost use Rattle.sc_smtlib_words.specs.Cut.{lacks};

/// The first line, without its newline, and what follows that.
pub fn cut_line(bytes: &[u8]) -> Option<(&[u8], &[u8])>
    ensures { MatchOption result (lacks 10 bytes.now ≡ true) (λ p. (bytes.now ≡ p.0.now ++ 10 ∷ p.1.now)
        × (lacks 10 p.0.now ≡ true)) }
{
    for (i, byte) in bytes.iter().enumerate() {
        if *byte == 10 {
            return Some((&bytes[..i], &bytes[i + 1..]));
        }
    }
    None
}

/// How many bytes two texts have in common from the front on.
fn common_front(a: &[u8], b: &[u8]) -> usize
    ensures { result ≡ common_prefix_len nat_eq a.now b.now }
{
    let mut count = 0;
    let mut left = a;
    let mut right = b;
    while let Some((x, xs)) = left.split_first() {
        let Some((y, ys)) = right.split_first() else {
            return count;
        };
        if *x != *y {
            return count;
        }
        count += 1;
        left = xs;
        right = ys;
    }
    count
}

/// Where two texts differ: how many bytes they have in common from the front on.
#[tactic(auto, using(crate::proofs::FrontLaws::front_all, crate::proofs::FrontLaws::left_longer, crate::proofs::FrontLaws::right_longer))]
pub fn difference(a: &[u8], b: &[u8]) -> Option<usize>
    ensures { MatchOption result (a.now ≡ b.now) (λ at. (at ≡ common_prefix_len nat_eq a.now b.now)
        × (a.now ≡ b.now → ⊥)) }
{
    let common = common_front(a, b);
    if common < a.len() {
        return Some(common);
    }
    if common < b.len() {
        return Some(common);
    }
    None
}
