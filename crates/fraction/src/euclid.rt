// Greatest common divisors by halving and differences, and the order of two quotients.
ghost use Rattle.std.specs.Prelude.{◌≡◌, ℕ, ◌*◌, ◌%◌, ◌<◌, ◌≤◌};
ghost use Rattle.std.specs.Ordering.{nat_cmp};
ghost use Rattle.integer.specs.Gcd.{gcd};

use std::cmp::Ordering;

const WORD_MAX: u128 = u64::MAX as u128;

// The greatest common divisor of a and b, which is 0 only for two zeros. It goes on in words as soon
// as a number fits one.
pub fn gcd(a: u128, b: u128) -> u128
    ensures { result ≡ gcd a b }
{
    if a == 1 || b == 1 {
        return 1;
    }
    if b <= WORD_MAX {
        gcd_with_word(a, b as u64)
    } else if a <= WORD_MAX {
        gcd_with_word(b, a as u64)
    } else {
        gcd_long(a, b)
    }
}

fn gcd_with_word(a: u128, b: u64) -> u128
    ensures { result ≡ gcd a b }
{
    if b == 0 {
        a
    } else if a <= WORD_MAX {
        u128::from(gcd_words(a as u64, b))
    } else {
        u128::from(gcd_words(b, (a % b as u128) as u64))
    }
}

fn gcd_long(a: u128, b: u128) -> u128
    ensures { result ≡ gcd a b }
{
    if a == 0 {
        b
    } else if a % 2 != 0 {
        gcd_odd_long(a, b)
    } else if b % 2 != 0 {
        gcd_odd_long(b, a)
    } else {
        2 * gcd_long(a / 2, b / 2)
    }
}

// As `gcd_odd`, until a number fits a word.
fn gcd_odd_long(a: u128, b: u128) -> u128
    requires { a % 2 ≡ 1 }
    ensures { result ≡ gcd a b }
{
    let mut x = a;
    let mut y = b;
    while y > WORD_MAX {
        let odd = odd_part_long(y);
        if odd < x {
            y = x - odd;
            x = odd;
        } else {
            y = odd - x;
        }
    }
    gcd_with_word(x, y as u64)
}

// As `odd_part`.
fn odd_part_long(n: u128) -> u128
    requires { 0 < n }
    ensures odd { result % 2 ≡ 1 }
    ensures small { result ≤ n }
    ensures same { (x : ℕ) → x % 2 ≡ 1 → gcd x result ≡ gcd x n }
{
    n >> n.trailing_zeros()
}

fn gcd_words(a: u64, b: u64) -> u64
    ensures { result ≡ gcd a b }
{
    if a == 0 {
        b
    } else if a % 2 != 0 {
        gcd_odd(a, b)
    } else if b % 2 != 0 {
        gcd_odd(b, a)
    } else {
        2 * gcd_words(a / 2, b / 2)
    }
}

// The greatest common divisor of an odd number and another, by differences of odd numbers.
fn gcd_odd(a: u64, b: u64) -> u64
    requires { a % 2 ≡ 1 }
    ensures value { result ≡ gcd a b }
    ensures small { result ≤ a }
{
    let mut x = a;
    let mut y = b;
    while y != 0 {
        let odd = odd_part(y);
        if odd < x {
            y = x - odd;
            x = odd;
        } else {
            y = odd - x;
        }
    }
    x
}

// The number without the zeros at the end of its binary digits.
fn odd_part(n: u64) -> u64
    requires { 0 < n }
    ensures odd { result % 2 ≡ 1 }
    ensures small { result ≤ n }
    ensures same { (x : ℕ) → x % 2 ≡ 1 → gcd x result ≡ gcd x n }
{
    n >> n.trailing_zeros()
}

// The order of a / b and c / d.
pub fn cmp_quotients(a: u128, b: u128, c: u128, d: u128) -> Ordering
    requires first { 0 < b }
    requires second { 0 < d }
    ensures { result ≡ nat_cmp (a * d) (c * b) }
{
    if a <= WORD_MAX && b <= WORD_MAX && c <= WORD_MAX && d <= WORD_MAX {
        cmp_words(a as u64, b as u64, c as u64, d as u64)
    } else {
        cmp_wide_quotients(a, b, c, d)
    }
}

// The order of a / b and c / d, by cross products.
fn cmp_words(a: u64, b: u64, c: u64, d: u64) -> Ordering
    ensures { result ≡ nat_cmp (a * d) (c * b) }
{
    (a as u128 * d as u128).cmp(&(c as u128 * b as u128))
}

// The order of a / b and c / d, by successive quotients.
fn cmp_wide_quotients(a: u128, b: u128, c: u128, d: u128) -> Ordering
    requires first { 0 < b }
    requires second { 0 < d }
    ensures { result ≡ nat_cmp (a * d) (c * b) }
{
    let mut a = a;
    let mut b = b;
    let mut c = c;
    let mut d = d;
    loop {
        let left = a / b;
        let right = c / d;
        if left != right {
            return left.cmp(&right);
        }
        let left_rest = a % b;
        let right_rest = c % d;
        if left_rest == 0 || right_rest == 0 {
            return left_rest.cmp(&right_rest);
        }
        a = d;
        c = b;
        b = right_rest;
        d = left_rest;
    }
}
