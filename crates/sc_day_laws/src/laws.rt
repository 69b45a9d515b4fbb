//! What holds of the clauses and of the words.
ghost use Rattle.std.specs.Prelude.{◌≡◌, ℕ, Bool, false, ℤ, pos, negsuc, int_lt, FitsSigned, ◌-ℤ◌, ◌*ℤ◌};
ghost use Rattle.std.specs.Int.{w64, int_wrap};
ghost use Rattle.sc_bits.specs.Bits.{bit64, of_bits64};
ghost use Rattle.sc_bits.specs.Adders.{leaves64, carry, added};
ghost use Rattle.sc_bits.specs.Orders.{low};
ghost use Rattle.sc_bits.specs.Products.{prow, pcar};
ghost use Rattle.sc_dates.specs.Days.{day, days_of, time_of, start_of};
ghost use Rattle.sc_day_laws.specs.Clauses.{first_day, last_day, KeepsClauses};
ghost use Rattle.sc_day_laws.specs.ScriptWords.{script_days, modulus};
ghost use Rattle.sc_day_laws.specs.Sums.{day_times};
ghost use Rattle.sc_day_laws.specs.SplitBits.{KeepsBits};

/// The clauses hold of them in 64 bits, and of nothing else.
pub fn clause_laws()
    ensures holds { (z : ℤ) → FitsSigned w64 z → KeepsClauses z (days_of z) (time_of z) }
    ensures only { (z d t : ℤ) → KeepsClauses z d t → (d ≡ days_of z) × (t ≡ time_of z) }
{}

/// The same over bits, with all that the clauses name between them.
pub fn bit_laws()
    ensures hold { (z : ℤ) → FitsSigned w64 z →
        (let n = bit64 z in let d = bit64 (days_of z) in let t = bit64 (time_of z) in let zero = bit64 (pos 0) in
        let m = bit64 (int_wrap w64 (days_of z *ℤ pos day)) in
        KeepsBits n d t (prow d (bit64 (pos day))) (pcar d (bit64 (pos day))) m (carry false m t) (added false m t)
        (low t zero) (low t (bit64 (pos day))) (low d (bit64 first_day)) (low (bit64 last_day) d) (low d zero)
        (low n zero)) }
    ensures only { (n d t : ℕ → Bool) (p c : ℕ → ℕ → Bool) (m k s l1 l2 l3 l4 l5 l6 : ℕ → Bool)
        → KeepsBits n d t p c m k s l1 l2 l3 l4 l5 l6
        → (of_bits64 d ≡ days_of (of_bits64 n)) × (of_bits64 t ≡ time_of (of_bits64 n)) }
{}

/// The words of a script, and when the start of the day leaves 64 bits.
pub fn start_laws()
    ensures days { (z : ℤ) → script_days z ≡ days_of z }
    ensures time { (z : ℤ) → modulus z day ≡ time_of z }
    ensures leaves { (z : ℤ) → FitsSigned w64 z
        → leaves64 (start_of z) ≡ int_lt (days_of z) (negsuc 106751991166) }
    ensures leaves_alike { (z : ℤ) → leaves64 (start_of z) ≡ leaves64 (z -ℤ time_of z) }
{}

/// The product by the length of a day as 31 sums.
pub fn sum_laws()
    ensures { (x : ℤ) → FitsSigned w64 x → day_times x ≡ int_wrap w64 (x *ℤ pos day) }
{}
