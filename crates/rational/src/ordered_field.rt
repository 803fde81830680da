// The laws of the rational numbers, each a clause of a function that does nothing.
ghost use Rattle.std.specs.Prelude.{◌≡◌, ◌≢◌, ◌⊎◌, ◌↔◌, pos};
ghost use Rattle.rational.specs.Rational.{Rational, ◌+ℚ◌, ◌*ℚ◌, neg_ℚ, inv_ℚ, zero_ℚ, one_ℚ, ◌≤ℚ◌, ◌<ℚ◌};

/// The rational numbers are a field.
#[tactic(auto, using(crate::proofs::Field::field_lemmas))]
pub fn field_laws()
    ensures sum_in_any_order { (a b : Rational) → a +ℚ b ≡ b +ℚ a }
    ensures sum_in_any_group { (a b c : Rational) → (a +ℚ b) +ℚ c ≡ a +ℚ (b +ℚ c) }
    ensures zero { (a : Rational) → a +ℚ zero_ℚ ≡ a }
    ensures negative { (a : Rational) → a +ℚ neg_ℚ a ≡ zero_ℚ }
    ensures product_in_any_order { (a b : Rational) → a *ℚ b ≡ b *ℚ a }
    ensures product_in_any_group { (a b c : Rational) → (a *ℚ b) *ℚ c ≡ a *ℚ (b *ℚ c) }
    ensures one { (a : Rational) → a *ℚ one_ℚ ≡ a }
    ensures inverse { (a : Rational) → a.numerator ≢ pos 0 → a *ℚ inv_ℚ a ≡ one_ℚ }
    ensures product_of_sum { (a b c : Rational) → a *ℚ (b +ℚ c) ≡ a *ℚ b +ℚ a *ℚ c }
{}

/// Their order is total, and sums and products with numbers from 0 on keep it.
#[tactic(auto, using(crate::proofs::Field::order_lemmas))]
pub fn order_laws()
    ensures at_most_itself { (a : Rational) → a ≤ℚ a }
    ensures chain { (a b c : Rational) → a ≤ℚ b → b ≤ℚ c → a ≤ℚ c }
    ensures both_ways { (a b : Rational) → a ≤ℚ b → b ≤ℚ a → a ≡ b }
    ensures one_way { (a b : Rational) → (a ≤ℚ b) ⊎ (b ≤ℚ a) }
    ensures sums { (a b c d : Rational) → a ≤ℚ b → c ≤ℚ d → a +ℚ c ≤ℚ b +ℚ d }
    ensures products { (k a b : Rational) → zero_ℚ ≤ℚ k → a ≤ℚ b → k *ℚ a ≤ℚ k *ℚ b }
    ensures below_is_at_most { (a b : Rational) → a <ℚ b → a ≤ℚ b }
    ensures below_is_not_above { (a b : Rational) → a <ℚ b → b ≤ℚ a → ⊥ }
{}
