// What a row is made of.
use fraction::Frac;
use gmpl_functions::Variable;

/// The bounds of a variable's member; an absent one is none.
#[derive(Clone, Copy)]
pub struct Bounds {
    pub lower: Option<Frac>,
    pub upper: Option<Frac>,
}

/// A variable's member with its coefficient in a form, which may be 0, and its bounds at this demand of it.
#[derive(Drop)]
pub struct Term {
    pub variable: Variable,
    pub bounds: Bounds,
    pub coefficient: Frac,
}
