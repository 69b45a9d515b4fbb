//! Laws of days and of times of the day.
ghost use Rattle.std.specs.Prelude.{◌≡◌, ℤ, pos, negsuc, ◌-ℤ◌, ◌*ℤ◌, ◌≤ℤ◌, ◌↔◌, FitsSigned};
ghost use Rattle.std.specs.Int.{w64};
ghost use Rattle.sc_dates.specs.Days.{day, days_of, time_of, start_of, IsSplit};

/// A number is its whole days and its time of the day, and no other days and time. The start of the day is the greatest
/// multiple of a day that isn't above the number, and the number less its time. It is out of 64 bits on one day alone,
/// number -106751991168.
pub fn day_laws()
    ensures split { (z : ℤ) → IsSplit z (days_of z) (time_of z) }
    ensures only { (z d t : ℤ) → IsSplit z d t → (d ≡ days_of z) × (t ≡ time_of z) }
    ensures greatest { (z d : ℤ) → (d *ℤ pos day) ≤ℤ z → (d *ℤ pos day) ≤ℤ start_of z }
    ensures start { (z : ℤ) → start_of z ≡ z -ℤ time_of z }
    ensures leaves { (z : ℤ) → FitsSigned w64 z →
        (FitsSigned w64 (start_of z) → ⊥) ↔ (days_of z ≡ negsuc 106751991167) }
{}
