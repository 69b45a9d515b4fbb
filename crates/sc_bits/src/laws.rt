//! What the definitions by bits promise of integers. Each law comes in two directions: from integers to the bits that
//! the recursions give, and from any bits that keep the recursions to the integer that they are of.
ghost use Rattle.std.specs.Prelude.{◌≡◌, ◌<◌, ◌≤◌, ◌↔◌, ℕ, ℤ, Bool, true, false, FitsSigned, ◌+ℤ◌, ◌-ℤ◌, ◌*ℤ◌, int_lt, IsTrue};
ghost use Rattle.std.specs.Int.{w64, int_wrap};
ghost use Rattle.sc_ip.specs.declared.ip.Ip.{Ip as AnyIp};
ghost use Rattle.sc_ip.specs.Addresses.{IsIp, is_in_range};
ghost use Rattle.sc_bits.specs.Addresses.{ip_bit, ip_of};
ghost use Rattle.sc_bits.specs.Bits.{bit64, of_bits64};
ghost use Rattle.sc_bits.specs.Adders.{odd, carry, carry_of_sum, carry_of_difference, added, complement, leaves64, sum_overflows, difference_overflows, IsAdder};
ghost use Rattle.sc_bits.specs.Blocks.{AgreeInRange, AreBlockBits};
ghost use Rattle.sc_bits.specs.Orders.{is_below, low, slt, IsLow};
ghost use Rattle.sc_bits.specs.Plain.{sum_carry, difference_carry, low_bits_less, row_bit, row_carry};
ghost use Rattle.sc_bits.specs.Products.{prow, pcar, RepeatsSign, IsMultiplier};

/// Integers of 64 bits and their bits are one to one.
pub fn integer_laws()
    ensures back { (z : ℤ) → FitsSigned w64 z → of_bits64 (bit64 z) ≡ z }
    ensures bits { (f : ℕ → Bool) (i : ℕ) → i < 64 → bit64 (of_bits64 f) i ≡ f i }
    ensures fits { (f : ℕ → Bool) → FitsSigned w64 (of_bits64 f) }
    ensures same { (a b : ℤ) → FitsSigned w64 a → FitsSigned w64 b
        → ((i : ℕ) → i < 64 → bit64 a i ≡ bit64 b i) ↔ (a ≡ b) }
    ensures only { (f g : ℕ → Bool) → ((i : ℕ) → i < 64 → f i ≡ g i) → of_bits64 f ≡ of_bits64 g }
    ensures wrapped { (z : ℤ) → of_bits64 (bit64 z) ≡ int_wrap w64 z }
    ensures leaves { (z : ℤ) → (leaves64 z ≡ false) ↔ FitsSigned w64 z }
{}

/// Carries, comparisons of lower bits, rows of partial products and the carries between them, by their recursions, are
/// those by plain integers.
pub fn plain_laws()
    ensures sum_carries { (a b : ℤ) (i : ℕ) → carry_of_sum a b i ≡ sum_carry a b i }
    ensures difference_carries { (a b : ℤ) (i : ℕ) → carry_of_difference a b i ≡ difference_carry a b i }
    ensures low_bits { (a b : ℤ) (i : ℕ) → low (bit64 a) (bit64 b) i ≡ low_bits_less a b i }
    ensures rows { (a b : ℤ) → FitsSigned w64 a → FitsSigned w64 b → (i j : ℕ) → i ≤ 128 → j < 128
        → prow (bit64 a) (bit64 b) i j ≡ row_bit a b i j }
    ensures row_carries { (a b : ℤ) → FitsSigned w64 a → FitsSigned w64 b → (i j : ℕ) → i < 128 → j ≤ 128
        → pcar (bit64 a) (bit64 b) i j ≡ row_carry a b i j }
{}

/// The bits of a wrapped sum, and when the exact one leaves 64 bits.
pub fn sum_laws()
    ensures bits { (a b : ℤ) (i : ℕ) → i < 64 → bit64 (int_wrap w64 (a +ℤ b)) i
        ≡ odd (bit64 a i) (bit64 b i) (carry_of_sum a b i) }
    ensures overflow { (a b : ℤ) → FitsSigned w64 a → FitsSigned w64 b
        → sum_overflows (bit64 a 63) (bit64 b 63) (bit64 (int_wrap w64 (a +ℤ b)) 63) ≡ leaves64 (a +ℤ b) }
    ensures carries { (first : Bool) (n : ℕ) (a b : ℕ → Bool) → IsAdder first n a b (carry first a b)
        (added first a b) }
    ensures rebuilt { (a b c r : ℕ → Bool) → IsAdder false 64 a b c r → of_bits64 r
        ≡ int_wrap w64 (of_bits64 a +ℤ of_bits64 b) }
    ensures rebuilt_overflow { (a b c r : ℕ → Bool) → IsAdder false 64 a b c r
        → sum_overflows (a 63) (b 63) (r 63) ≡ leaves64 (of_bits64 a +ℤ of_bits64 b) }
{}

/// The bits of a wrapped difference, and when the exact one leaves 64 bits.
pub fn difference_laws()
    ensures bits { (a b : ℤ) (i : ℕ) → i < 64
        → bit64 (int_wrap w64 (a -ℤ b)) i ≡ odd (bit64 a i) (complement (bit64 b) i) (carry_of_difference a b i) }
    ensures overflow { (a b : ℤ) → FitsSigned w64 a → FitsSigned w64 b
        → difference_overflows (bit64 a 63) (bit64 b 63) (bit64 (int_wrap w64 (a -ℤ b)) 63) ≡ leaves64 (a -ℤ b) }
    ensures rebuilt { (a b c r : ℕ → Bool) → IsAdder true 64 a (complement b) c r
        → of_bits64 r ≡ int_wrap w64 (of_bits64 a -ℤ of_bits64 b) }
    ensures rebuilt_overflow { (a b c r : ℕ → Bool) → IsAdder true 64 a (complement b) c r
        → difference_overflows (a 63) (b 63) (r 63) ≡ leaves64 (of_bits64 a -ℤ of_bits64 b) }
{}

/// The test by bits is the order of integers.
pub fn order_laws()
    ensures order { (a b : ℤ) → FitsSigned w64 a → FitsSigned w64 b → slt (bit64 a) (bit64 b) ≡ int_lt a b }
    ensures steps { (n : ℕ) (a b : ℕ → Bool) → IsLow n a b (low a b) }
    ensures rebuilt { (a b l : ℕ → Bool) → IsLow 63 a b l → is_below (b 63) (a 63) (l 63)
        ≡ int_lt (of_bits64 a) (of_bits64 b) }
{}

/// The last row of partial products is the exact product in 128 bits, its lowest 64 bits are those of the wrapped
/// one, and its upper bits tell whether the exact one leaves 64 bits.
pub fn product_laws()
    ensures exact { (a b : ℤ) → FitsSigned w64 a → FitsSigned w64 b → (j : ℕ) → j < 128
        → bit64 (a *ℤ b) j ≡ prow (bit64 a) (bit64 b) 128 j }
    ensures bits { (a b : ℤ) (i : ℕ) → i < 64 → bit64 (int_wrap w64 (a *ℤ b)) i ≡ prow (bit64 a) (bit64 b) 128 i }
    ensures overflow { (a b : ℤ) → FitsSigned w64 a → FitsSigned w64 b
        → (leaves64 (a *ℤ b) ≡ false) ↔ RepeatsSign (prow (bit64 a) (bit64 b) 128) }
    ensures rows { (n : ℕ) (a b : ℕ → Bool) → IsMultiplier n a b (prow a b) (pcar a b) }
    ensures rebuilt { (n : ℕ) (a b : ℕ → Bool) (p c : ℕ → ℕ → Bool) → 64 ≤ n → IsMultiplier n a b p c
        → of_bits64 (p 128) ≡ int_wrap w64 (of_bits64 a *ℤ of_bits64 b) }
    ensures rebuilt_overflow { (a b : ℕ → Bool) (p c : ℕ → ℕ → Bool) → IsMultiplier 128 a b p c
        → (leaves64 (of_bits64 a *ℤ of_bits64 b) ≡ false) ↔ RepeatsSign (p 128) }
{}

/// Which bits an address with its prefix has, that bits which keep the clauses on addresses are those of just one, and
/// when its range lies in another's.
pub fn address_laws()
    ensures clauses { (a : AnyIp) → IsIp a → AreBlockBits (ip_bit a) }
    ensures range { (a b : AnyIp) → IsIp a → IsIp b → IsTrue (is_in_range a b) ↔ AgreeInRange (ip_bit a) (ip_bit b) }
    ensures fits { (f : ℕ → Bool) → AreBlockBits f → IsIp (ip_of f) }
    ensures bits { (f : ℕ → Bool) → AreBlockBits f → (k : ℕ) → k < 257 → ip_bit (ip_of f) k ≡ f k }
    ensures only { (a b : AnyIp) → IsIp a → IsIp b → ((k : ℕ) → k < 257 → ip_bit a k ≡ ip_bit b k) → a ≡ b }
    ensures rebuilt_range { (f g : ℕ → Bool) → AreBlockBits f → AreBlockBits g
        → IsTrue (is_in_range (ip_of f) (ip_of g)) ↔ AgreeInRange f g }
{}
