// Sums, products and quotients of wide numbers.
use std::alloc::{AllocError, Global};
use wide::Wide;

const P: u128 = 170141183460469231731687303715884105727;

const Q: u128 = 162259276829213363391578010288127;

const DIVISOR_END: u128 = 0x8000_0000_0000_0000_0000_0000_0000_0000;

fn square() -> Wide {
    Wide::product(P, P)
}

// P * P * Q + 987654321 * 1000000007.
fn large() -> Wide {
    Wide::product(P, P)
        .times(Q)
        .add(Wide::product(987654321, 1000000007))
}

/// What a calculation comes to: `large` or `square`, and behind it steps, each on what the steps before it came to: `/n`
/// divides, `%n` leaves the rest, `-square` subtracts, and `<square` and `<large` are 1 where it is less and else 0.
pub(crate) fn calculation(alloc: Global, asked: &str) -> Result<String, AllocError> {
    let mut number = Wide::product(0, 0);
    for word in asked.split(' ') {
        number = after_step(number, word);
    }
    match number.to_u128() {
        Some(number) => format!(in alloc; "{number}"),
        None => "wide".to_string(alloc),
    }
}

fn after_step(number: Wide, word: &str) -> Wide {
    match word {
        "large" => large(),
        "square" => square(),
        "<large" => truth(number.is_below(large())),
        "<square" => truth(number.is_below(square())),
        "-square" => without_square(number),
        _ => divided(number, word),
    }
}

fn truth(holds: bool) -> Wide {
    Wide::product(u128::from(holds), 1)
}

fn without_square(number: Wide) -> Wide {
    let square = square();
    if number.is_below(square) {
        number
    } else {
        number.sub(square)
    }
}

fn divided(number: Wide, word: &str) -> Wide {
    let divisor = divisor(word);
    if divisor == 0 || divisor >= DIVISOR_END {
        return number;
    }
    let (quotient, rest) = number.divided_by(divisor);
    if word.starts_with('/') {
        quotient
    } else {
        Wide::product(rest, 1)
    }
}

// The number behind the sign, or 0.
fn divisor(word: &str) -> u128 {
    let digits = word.trim_start_matches(['/', '%']);
    digits.parse::<u128>().unwrap_or(0)
}
