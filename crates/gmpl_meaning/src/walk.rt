// What an indexing expression goes over.

use gmpl_value::{EvalFault, SetValue, Symbol, Tuple};
use sqlite_items::Items;

/// An element of an indexing expression.
#[derive(Drop)]
pub struct Element {
    /// The components that the new indices take: they stand behind the indices in scope.
    pub indices: Tuple,
    /// All components.
    pub tuple: Tuple,
}

/// The elements of an indexing expression in order, up to the first fault.
#[derive(Drop)]
pub struct Walk {
    pub elements: Items<Element>,
    /// The fault behind these elements, where there is one.
    pub fault: Option<EvalFault>,
}

/// What an entry of an indexing expression gives.
#[derive(Drop)]
pub struct EntryValue {
    /// What each component of an element must equal, and nothing of a new index; none where the entry has no index.
    pub pattern: Option<Items<Option<Symbol>>>,
    pub set: SetValue,
}
