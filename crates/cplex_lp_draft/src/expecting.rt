// What of the grammar may come next.
ghost use Rattle.std.specs.Prelude.{◌≡◌};
ghost use Rattle.cplex_lp_draft.specs.Signs.{after_plus, after_minus, signed};
ghost use Rattle.cplex_lp_draft.specs.Expecting.{ends_objective, ends_section, is_start, is_ended};

use cplex_lp_tokens::Relation;
use fraction::Frac;

/// The sign before a number, as far as it is read.
#[derive(Clone, Copy)]
pub enum Sign {
    Unsigned,
    Plus,
    Minus,
}

impl Sign {
    /// With a plus more.
    pub fn after_plus(self) -> Sign
        ensures { result ≡ after_plus self }
    {
        match self {
            Sign::Unsigned => Sign::Plus,
            Sign::Plus => Sign::Plus,
            Sign::Minus => Sign::Minus,
        }
    }

    /// With a minus more, which turns it.
    pub fn after_minus(self) -> Sign
        ensures { result ≡ after_minus self }
    {
        match self {
            Sign::Unsigned => Sign::Minus,
            Sign::Plus => Sign::Minus,
            Sign::Minus => Sign::Plus,
        }
    }

    /// A number with this sign.
    pub fn signed(self, value: Frac) -> Frac
        ensures { result ≡ signed self value }
    {
        match self {
            Sign::Unsigned => value,
            Sign::Plus => value,
            Sign::Minus => value.neg(),
        }
    }
}

/// A number of a bound.
#[derive(Clone, Copy)]
pub enum Limit {
    MinusInfinity,
    Finite(Frac),
    PlusInfinity,
}

/// Inside a linear form.
#[derive(Clone, Copy)]
pub enum TermPart {
    // a term is about to begin, or has signs alone
    Begun(Sign),
    // after the number before a name
    Factor(Frac),
    // after a term
    Done,
}

/// What was read last, and so what may come next.
#[derive(Clone, Copy)]
pub enum Expecting {
    // before the first section
    Start,
    // the objective's first token comes
    ObjectiveStart,
    // the colon after the objective's name comes
    ObjectiveColon,
    // in the objective's form
    Objective(TermPart),
    // a constraint may begin
    RowStart,
    // the colon after a row's name comes
    RowColon,
    // a row's first term or the number on its left comes
    RowFirst(Sign),
    // after a row's first number, which may be the one on its left
    RowNumber(Frac),
    // in a row's form
    RowTerms(TermPart),
    // the number on a row's right comes
    RowRight(Relation, Sign),
    // a bound may begin
    BoundStart,
    // the number on a bound's left comes
    BoundLeft(Sign),
    // the relation after the number on a bound's left comes
    BoundRelation(Limit),
    // the name after the number on a bound's left comes
    BoundName(Limit, Relation),
    // after the name of a column, where it stands first
    BoundNamed(u32),
    // after the name of a column that has a number on its left
    BoundCompared(u32),
    // the number on a bound's right comes
    BoundRight(u32, Relation, Sign),
    // among the names of general columns
    Generals,
    // among the names of binary columns
    Binaries,
    // after the end
    Ended,
}

impl Expecting {
    /// The objective is read to its end, if no more of it comes.
    pub fn ends_objective(self) -> bool
        ensures { result ≡ ends_objective self }
    {
        match self {
            Expecting::ObjectiveStart => true,
            Expecting::Objective(TermPart::Begun(Sign::Unsigned)) => true,
            Expecting::Objective(TermPart::Done) => true,
            _ => false,
        }
    }

    /// A section after the objective is read to its end, if no more of it comes.
    pub fn ends_section(self) -> bool
        ensures { result ≡ ends_section self }
    {
        match self {
            Expecting::RowStart => true,
            Expecting::BoundStart => true,
            Expecting::BoundNamed(_) => true,
            Expecting::BoundCompared(_) => true,
            Expecting::Generals => true,
            Expecting::Binaries => true,
            _ => false,
        }
    }

    /// No section has begun.
    pub fn is_start(self) -> bool
        ensures { result ≡ is_start self }
    {
        match self {
            Expecting::Start => true,
            _ => false,
        }
    }

    /// The text is at its end.
    pub fn is_ended(self) -> bool
        ensures { result ≡ is_ended self }
    {
        match self {
            Expecting::Ended => true,
            _ => false,
        }
    }
}
