// What a system's unknowns are for the factors that solve it.
use crate::lists::Entry;
use crate::stop::Stop;
use fraction::Frac;

/// The unknowns of a system while it is solved.
pub trait Unknowns {
    /// The number at a place is 0, so that nothing is to be done with it.
    fn is_zero(&self, place: usize) -> bool;

    /// Whether so few numbers are known to be other than 0 that it is cheaper to look for the next of them than to go over `count` places.
    fn are_few(&self, count: usize) -> bool;

    /// The least rank, from `from` on, of a place whose number isn't 0; none where it isn't known which these are.
    fn first_from(&self, ranks: &[usize], from: usize) -> Option<usize>;

    /// The largest one below `end`.
    fn last_below(&self, ranks: &[usize], end: usize) -> Option<usize>;

    /// Multiplies the number at a place.
    fn multiply(&mut self, place: usize, factor: Frac) -> Result<(), Stop>;

    /// Takes the entries, times the number at a place, off the numbers at theirs.
    fn subtract_multiple(&mut self, entries: &[Entry], place: usize) -> Result<(), Stop>;

    /// Takes the products of the entries with the numbers at theirs off the number at a place.
    fn subtract_products(&mut self, entries: &[Entry], place: usize) -> Result<(), Stop>;
}
