// What is asked for.
use fraction::Frac;
use gmpl_value::Tuple;

/// What is asked for, and kept where it has a value.
#[derive(PartialEq, Eq, Hash, Drop)]
pub enum Asked {
    /// A member without suffix: the place of its object among the statements, how many members may stand in the chain of demands
    /// that begins with it, and its subscripts.
    Member(usize, u32, Tuple),
    /// The numbers from one to another, by a step.
    Range(Frac, Frac, Frac),
    /// The set of an entry of a domain: the place of the object, the number of the entry, how many members may stand in the chain
    /// of demands, and the values of the indices in scope.
    Entry(usize, usize, u32, Tuple),
    /// What an attribute restricts values to, in the same way.
    Restriction(usize, usize, u32, Tuple),
}
