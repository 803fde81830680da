// What statements declare.
use gmpl_text::Text;

/// What a statement says of all members of its object: the name, and whether the members of a variable are whole numbers.
#[derive(Drop)]
pub struct Declared {
    pub name: Text,
    pub integer: bool,
}
