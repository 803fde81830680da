// Numbers of 384 bits, and the fraction that one stands for by a modulus. What passes 384 bits is cut off.
use fraction::Frac;
use sparse_factors::{quotient, whole};

const WORDS: usize = 6;

const WORD: u128 = 1 << 64;

/// A whole number, its lowest words first.
#[derive(Clone, Copy)]
pub(crate) struct Long {
    words: [u64; WORDS],
}

impl Long {
    /// A number of one word.
    pub(crate) fn of(word: u64) -> Long {
        let mut words = [0; WORDS];
        words[0] = word;
        Long { words }
    }

    // The sum.
    fn plus(&self, other: &Long) -> Long {
        let mut words = [0; WORDS];
        let mut carry: u64 = 0;
        for i in 0..WORDS {
            let both = u128::from(self.words[i]).wrapping_add(u128::from(other.words[i]));
            let sum = both.wrapping_add(u128::from(carry));
            words[i] = (sum % WORD) as u64;
            carry = (sum / WORD) as u64;
        }
        Long { words }
    }

    // The difference, where the other one is not larger.
    fn minus(&self, other: &Long) -> Long {
        let mut words = [0; WORDS];
        let mut borrow: u64 = 0;
        for i in 0..WORDS {
            let a = self.words[i];
            let b = other.words[i];
            words[i] = a.wrapping_sub(b).wrapping_sub(borrow);
            borrow = if a < b || (a == b && borrow > 0) {
                1
            } else {
                0
            };
        }
        Long { words }
    }

    /// The number times a word, and another word added.
    pub(crate) fn times_plus(&self, factor: u64, more: u64) -> Long {
        let mut words = [0; WORDS];
        let mut carry: u64 = more;
        for i in 0..WORDS {
            let product = u128::from(self.words[i]) * u128::from(factor);
            let low = (product % WORD).wrapping_add(u128::from(carry));
            words[i] = (low % WORD) as u64;
            carry = ((product / WORD) as u64).wrapping_add((low / WORD) as u64);
        }
        Long { words }
    }

    // Whether the number is below the other one.
    fn is_below(&self, other: &Long) -> bool {
        for i in (0..WORDS).rev() {
            if self.words[i] != other.words[i] {
                return self.words[i] < other.words[i];
            }
        }
        false
    }

    // The number, where it is below 2^127.
    fn small(&self) -> Option<i128> {
        if self.words[5] != 0 || self.words[4] != 0 || self.words[3] != 0 || self.words[2] != 0 {
            return None;
        }
        let n = u128::from(self.words[1]) * WORD + u128::from(self.words[0]);
        match i128::try_from(n) {
            Ok(n) => Some(n),
            Err(_) => None,
        }
    }
}

// What is left of a number in the course of division, and the factor by which it comes from the number at the start.
#[derive(Clone, Copy)]
struct Remainder {
    rest: Long,
    factor: Long,
}

impl Remainder {
    fn doubled(&self) -> Remainder {
        Remainder {
            rest: self.rest.plus(&self.rest),
            factor: self.factor.plus(&self.factor),
        }
    }

    // Takes off the largest double of the divisor, doubled again and again, that is not larger.
    fn less_a_multiple_of(&self, divisor: &Remainder) -> Remainder {
        let multiple = largest_double(divisor, &self.rest);
        Remainder {
            rest: self.rest.minus(&multiple.rest),
            factor: self.factor.plus(&multiple.factor),
        }
    }

    // What is left by the divisor.
    fn divided_by(&self, divisor: &Remainder) -> Remainder {
        let mut left = copy_of(self);
        for _ in 0..STEPS {
            if left.rest.is_below(&divisor.rest) {
                return left;
            }
            left = left.less_a_multiple_of(divisor);
        }
        left
    }
}

// More than all divisions of numbers of 384 bits take.
const STEPS: u32 = 400;

fn copy_of(a: &Remainder) -> Remainder {
    *a
}

fn largest_double(divisor: &Remainder, limit: &Long) -> Remainder {
    let mut multiple = copy_of(divisor);
    for _ in 0..STEPS {
        let next = multiple.doubled();
        if limit.is_below(&next.rest) {
            return multiple;
        }
        multiple = next;
    }
    multiple
}

/// The fraction n / d, of parts below 2^127, for which d times the number leaves n by the modulus.
pub(crate) fn fraction_of(number: &Long, modulus: &Long) -> Option<Frac> {
    let mut before = Remainder {
        rest: *modulus,
        factor: Long::of(0),
    };
    let mut now = Remainder {
        rest: *number,
        factor: Long::of(1),
    };
    let mut is_negative = false;
    for _ in 0..STEPS {
        match now.rest.small() {
            Some(n) => return over(n, &now.factor, is_negative),
            None => {}
        }
        let next = before.divided_by(&now);
        before = now;
        now = next;
        is_negative = !is_negative;
    }
    None
}

fn over(n: i128, factor: &Long, is_negative: bool) -> Option<Frac> {
    let d = factor.small()?;
    let numerator = whole(n).ok()?;
    let denominator = whole(d).ok()?;
    let fraction = quotient(numerator, denominator).ok()?;
    Some(if is_negative {
        fraction.neg()
    } else {
        fraction
    })
}
