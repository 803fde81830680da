// Texts of whole numbers with a point among their digits.
ghost use Rattle.std.specs.Prelude.{◌≡◌, ◌≤◌, ◌<◌, ◌*◌, ◌/◌, ◌^◌, ◌++◌, OnOk, string_bytes};
ghost use Rattle.std.specs.Fmt.{decimal};
ghost use Rattle.wide.specs.Parts.{part_end};
ghost use Rattle.decimals.specs.Digits.{last_digits, written, shortened};

use std::alloc::AllocError;
use wide::Wide;

// The digits that a word holds, and the number after the largest of so many digits.
const WORD_PLACES: u32 = 18;

const WORD_END: u128 = 1_000_000_000_000_000_000;

// Writes the last digits of a number, zeros before its first digit among them.
#[tactic(auto, unfolding(crate::specs::Digits::last_digits))]
fn push_digits(text: &mut String, number: u64, count: u32) -> Result<(), AllocError>
    ensures { OnOk result (string_bytes text.new ≡ string_bytes text.old ++ last_digits count number) }
{
    if count == 0 {
        return Ok(());
    }
    push_digits(text, number / 10, count - 1)?;
    text.push(char::from(b'0' + (number % 10) as u8))
}

// Writes a number below 2^128.
fn push_whole(text: &mut String, number: Wide) -> Result<(), AllocError>
    requires { number < part_end }
    ensures { OnOk result (string_bytes text.new ≡ string_bytes text.old ++ decimal number) }
{
    match number.to_u128() {
        Some(whole) => write!(text, "{whole}"),
        None => unreachable!(),
    }
}

// Writes the number with its last `places` digits behind a point.
#[tactic(auto, unfolding(crate::specs::Digits::written))]
pub fn push_written(text: &mut String, number: Wide, places: u32) -> Result<(), AllocError>
    requires { number / 10 ^ places < part_end }
    ensures { OnOk result (string_bytes text.new ≡ string_bytes text.old ++ written places number) }
{
    if places == 0 {
        push_whole(text, number)
    } else if places <= WORD_PLACES {
        let (whole, rest) = number.divided_by(10u128.pow(places));
        push_whole(text, whole)?;
        text.push('.')?;
        push_digits(text, rest as u64, places)
    } else {
        let (front, rest) = number.divided_by(WORD_END);
        push_written(text, front, places - WORD_PLACES)?;
        push_digits(text, rest as u64, WORD_PLACES)
    }
}

// Writes it without zeros at the end of the part behind the point.
#[tactic(auto, unfolding(crate::specs::Digits::shortened))]
pub fn push_shortened(text: &mut String, number: Wide, places: u32) -> Result<(), AllocError>
    requires { number / 10 ^ places < part_end }
    ensures { OnOk result (string_bytes text.new ≡ string_bytes text.old ++ shortened places number) }
{
    if places == 0 {
        return push_written(text, number, places);
    }
    let (front, last) = number.divided_by(10);
    if last == 0 {
        push_shortened(text, front, places - 1)
    } else {
        push_written(text, number, places)
    }
}
