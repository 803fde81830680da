// The numbers and their operations.
ghost use Rattle.std.specs.Prelude.{ℕ, ◌≡◌, ◌≤◌, ◌<◌, ◌+◌, ◌-◌, ◌*◌, ◌/◌, ◌%◌, ◌^◌, SomeIff, nat_lt};
ghost use Rattle.wide.specs.Parts.{part_end, wide_end, whole_of};

use crate::division::part_quotient;
use crate::words::{add_carry, part_product, sub_borrow};
use std::marker::Model;

/// A whole number below 2^384.
#[derive(Clone, Copy)]
pub struct Wide {
    low: u128,
    mid: u128,
    high: u128,
}

impl Model for Wide {
    ghost use Rattle.std.specs.Prelude.{ℕ, ◌<◌};
    ghost use Rattle.std.proofs.Common.{refl};
    ghost use Rattle.wide.specs.Parts.{part_end, whole_of, low_of, mid_of, high_of, low_back, mid_back, high_back};

    ghost Value = { ℕ };

    ghost view = { λ a. whole_of a.low a.mid a.high };

    ghost invariant = { λ a. (a.low < part_end) × (a.mid < part_end) × (a.high < part_end) };

    ghost inverse = { λ n. record { low = low_of n; mid = mid_of n; high = high_of n } };

    ghost inverse_ok = { λ a h. rw (low_back a.low a.mid a.high h.0, mid_back a.low a.mid a.high h.0 h.1, high_back a.low a.mid a.high h.0 h.1) refl };
}

impl Wide {
    // The parts, from the least.
    fn open(self) -> (u128, u128, u128)
        ensures { self ≡ whole_of result.0 result.1 result.2 }
    {
        (self.low, self.mid, self.high)
    }

    fn new(low: u128, mid: u128, high: u128) -> Wide
        ensures { result ≡ whole_of low mid high }
    {
        Wide { low, mid, high }
    }

    /// The number, where 128 bits hold it.
    pub fn to_u128(self) -> Option<u128>
        ensures { SomeIff result (self < part_end) self }
    {
        let (low, mid, high) = self.open();
        if mid == 0 && high == 0 {
            Some(low)
        } else {
            None
        }
    }

    /// Whether the number is less than the other.
    pub fn is_below(self, other: Wide) -> bool
        ensures { result ≡ nat_lt self other }
    {
        let (low, mid, high) = self.open();
        let (low_2, mid_2, high_2) = other.open();
        let (_, first) = sub_borrow(low, low_2, 0);
        let (_, second) = sub_borrow(mid, mid_2, first);
        let (_, third) = sub_borrow(high, high_2, second);
        third == 1
    }

    /// The sum.
    pub fn add(self, other: Wide) -> Wide
        requires { self + other < wide_end }
        ensures { result ≡ self + other }
    {
        let (low, mid, high) = self.open();
        let (low_2, mid_2, high_2) = other.open();
        let (first, carry) = add_carry(low, low_2, 0);
        let (second, carry_2) = add_carry(mid, mid_2, carry);
        let (third, _) = add_carry(high, high_2, carry_2);
        Wide::new(first, second, third)
    }

    /// The difference.
    pub fn sub(self, other: Wide) -> Wide
        requires { other ≤ self }
        ensures { result ≡ self - other }
    {
        let (low, mid, high) = self.open();
        let (low_2, mid_2, high_2) = other.open();
        let (first, borrow) = sub_borrow(low, low_2, 0);
        let (second, borrow_2) = sub_borrow(mid, mid_2, borrow);
        let (third, _) = sub_borrow(high, high_2, borrow_2);
        Wide::new(first, second, third)
    }

    /// a * b.
    pub fn product(a: u128, b: u128) -> Wide
        ensures { result ≡ a * b }
    {
        let (low, mid) = part_product(a, b, 0);
        Wide::new(low, mid, 0)
    }

    /// The number times b.
    pub fn times(self, b: u128) -> Wide
        requires { self * b < wide_end }
        ensures { result ≡ self * b }
    {
        let (low, mid, high) = self.open();
        let (first, up) = part_product(low, b, 0);
        let (second, up_2) = part_product(mid, b, up);
        let (third, _) = part_product(high, b, up_2);
        Wide::new(first, second, third)
    }

    /// The number divided by one of a single part, rounded down, and what is left.
    pub fn divided_by(self, divisor: u128) -> (Wide, u128)
        requires positive { 0 < divisor }
        requires small { divisor < 2 ^ 127 }
        ensures quotient { result.0 ≡ self / divisor }
        ensures rest { result.1 ≡ self % divisor }
    {
        if divisor == 1 {
            return (self, 0);
        }
        let (low, mid, high) = self.open();
        let (third, over) = part_quotient(0, high, divisor);
        let (second, over_2) = part_quotient(over, mid, divisor);
        let (first, left) = part_quotient(over_2, low, divisor);
        (Wide::new(first, second, third), left)
    }
}
