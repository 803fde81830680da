// Whole numbers by the prime 2^61 - 1.

/// The prime.
pub(crate) const PRIME: u64 = 2305843009213693951;

const WIDE_PRIME: u128 = PRIME as u128;

fn reduced(n: u128) -> u64 {
    (n % WIDE_PRIME) as u64
}

/// What is left of n.
pub(crate) fn residue(n: i128) -> u64 {
    let size = reduced(n.unsigned_abs());
    if n < 0 { negative(size) } else { size }
}

/// a + b
pub(crate) fn plus(a: u64, b: u64) -> u64 {
    reduced(u128::from(a) + u128::from(b))
}

/// a b
pub(crate) fn times(a: u64, b: u64) -> u64 {
    reduced(u128::from(a) * u128::from(b))
}

/// -a
pub(crate) fn negative(a: u64) -> u64 {
    PRIME - a % PRIME
}

/// 1 / a, and 0 where a is 0: a to the power of the prime less 2.
pub(crate) fn inverse(a: u64) -> u64 {
    let mut result = 1;
    let mut power = a;
    let mut exponent = PRIME - 2;
    for _ in 0..61u32 {
        if exponent % 2 == 1 {
            result = times(result, power);
        }
        power = times(power, power);
        exponent /= 2;
    }
    result
}
