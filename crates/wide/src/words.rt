// Sums, differences and products of one part, with what they carry.
ghost use Rattle.std.specs.Prelude.{◌≡◌, ◌≤◌, ◌+◌, ◌*◌, ◌^◌};

// a + b + carry, in a part and a carry.
pub fn add_carry(a: u128, b: u128, carry: u64) -> (u128, u64)
    requires { carry ≤ 1 }
    ensures sum { result.0 + 2 ^ 128 * result.1 ≡ a + b + carry }
    ensures small { result.1 ≤ 1 }
{
    let room = u128::MAX - a;
    if carry == 0 {
        if b <= room {
            (a + b, 0)
        } else {
            (b - room - 1, 1)
        }
    } else if b < room {
        (a + b + 1, 0)
    } else {
        (b - room, 1)
    }
}

// a - b - borrow, in a part and a borrow.
pub fn sub_borrow(a: u128, b: u128, borrow: u64) -> (u128, u64)
    requires { borrow ≤ 1 }
    ensures difference { result.0 + b + borrow ≡ a + 2 ^ 128 * result.1 }
    ensures small { result.1 ≤ 1 }
{
    let room = u128::MAX - b;
    if borrow == 0 {
        if b <= a {
            (a - b, 0)
        } else {
            (room + a + 1, 1)
        }
    } else if b < a {
        (a - b - 1, 0)
    } else {
        (room + a, 1)
    }
}

// The two words of a part.
pub fn split(n: u128) -> (u64, u64)
    ensures { n ≡ result.0 + 2 ^ 64 * result.1 }
{
    (
        (n % 0x1_0000_0000_0000_0000) as u64,
        (n / 0x1_0000_0000_0000_0000) as u64,
    )
}

// The part of two words.
pub fn join(low: u64, high: u64) -> u128
    ensures { result ≡ low + 2 ^ 64 * high }
{
    low as u128 + 0x1_0000_0000_0000_0000 * (high as u128)
}

// a * b + more + carry, in two words.
fn word_product(a: u64, b: u64, more: u64, carry: u64) -> (u64, u64)
    ensures { result.0 + 2 ^ 64 * result.1 ≡ a * b + more + carry }
{
    split(a as u128 * b as u128 + more as u128 + carry as u128)
}

// a * b + more, in two parts.
pub fn part_product(a: u128, b: u128, more: u128) -> (u128, u128)
    ensures { result.0 + 2 ^ 128 * result.1 ≡ a * b + more }
{
    let (a_low, a_high) = split(a);
    let (b_low, b_high) = split(b);
    let (more_low, more_high) = split(more);
    let (first, up) = word_product(a_low, b_low, more_low, 0);
    let (inner, over) = word_product(a_high, b_low, more_high, up);
    let (second, next) = word_product(a_low, b_high, inner, 0);
    let (third, fourth) = word_product(a_high, b_high, over, next);
    (join(first, second), join(third, fourth))
}
