// Which cuts are worth a row: those of small numbers, since long ones soon lead to numbers that do not fit.
ghost use Rattle.std.specs.Prelude.{◌≡◌, IfSome};

use certificate::Derived;
use fraction::Frac;

// A part of a fraction has at most 16 bits.
const LARGEST_PART: u128 = 65_535;

fn is_small_number(number: Frac) -> bool {
    let (numerator, denominator) = number.parts();
    numerator.unsigned_abs() <= LARGEST_PART && denominator.unsigned_abs() <= LARGEST_PART
}

// All numbers of a cut are small.
fn is_small(cut: &Derived) -> bool {
    if !is_small_number(cut.bound()) {
        return false;
    }
    for entry in cut.form().as_slice() {
        if !is_small_number(entry.coefficient) {
            return false;
        }
    }
    true
}

/// The cut, if all its numbers are small.
pub(crate) fn if_small(cut: Derived) -> Option<Derived>
    ensures { IfSome result (λ kept. kept ≡ cut) }
{
    if is_small(&cut) { Some(cut) } else { None }
}
