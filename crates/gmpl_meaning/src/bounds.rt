// The bounds of a variable's member.

use fraction::Frac;

/// The bounds of a variable's member.
#[derive(Clone, Copy)]
pub struct Bounds {
    pub lower: Option<Frac>,
    pub upper: Option<Frac>,
}
