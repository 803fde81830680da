// What the operations answer at whole numbers.
ghost use Rattle.std.specs.Prelude.{◌≡◌, ℕ, ℤ, ◌+ℤ◌, ◌*ℤ◌, ◌^◌, ◌<◌, ◌≤◌, ◌↔◌, List, unsigned_abs, IsTrue, Ok, Some};
ghost use Rattle.std.specs.Fmt.{decimal};
ghost use Rattle.rational.specs.Rational.{Rational, whole};
ghost use Rattle.fraction.specs.Fits.{part_max, fits};
ghost use Rattle.fraction.specs.Text.{text_of};
ghost use Rattle.fraction.specs.Canonical.{plain_digits_of, read_canonical_of};
ghost use Rattle.fraction.specs.Answers.{add_answer, mul_answer};

/// Products of whole numbers are whole and fit where their value does; so are sums of whole numbers that fit.
#[tactic(auto, using(crate::proofs::WholeNumbers::whole_numbers_lemmas))]
pub fn whole_numbers()
    ensures product { (n m : ℤ) → unsigned_abs (n *ℤ m) ≤ part_max
        → mul_answer (whole n) (whole m) ≡ Ok (whole (n *ℤ m)) }
    ensures sum { (n m : ℤ) → unsigned_abs n ≤ part_max → unsigned_abs m ≤ part_max → unsigned_abs (n +ℤ m) ≤ part_max
        → add_answer (whole n) (whole m) ≡ Ok (whole (n +ℤ m)) }
{}

/// Each fraction that fits has one text from which it is read, and each whole number below 10^64 one text of plain
/// digits.
pub fn texts()
    ensures fractions { (text : List ℕ) (q : Rational) → (read_canonical_of text ≡ Ok q) ↔ (IsTrue (fits q) × (text ≡ text_of q)) }
    ensures digits { (text : List ℕ) (n : ℕ) → n < 10 ^ 64 → (plain_digits_of text ≡ Some n) ↔ (text ≡ decimal n) }
{}
