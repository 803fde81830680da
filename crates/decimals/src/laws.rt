// What the definitions of roundings and exponents mean.
ghost use Rattle.std.specs.Prelude.{◌≡◌, ◌<◌, ◌↔◌, ℕ, ℤ};
ghost use Rattle.decimals.specs.Rounding.{IsNearest, nearest};
ghost use Rattle.decimals.specs.Significand.{IsExponent, exponent};

/// One whole number is the nearest to a quotient, and of two that are as near the even one.
pub fn roundings()
    ensures { (n d m : ℕ) → 0 < d → (m ≡ nearest n d) ↔ IsNearest n d m }
{}

/// One power of 10 is the greatest that is at most a quotient above 0.
pub fn exponents()
    ensures { (n d : ℕ) (x : ℤ) → 0 < n → 0 < d → (x ≡ exponent n d) ↔ IsExponent n d x }
{}
