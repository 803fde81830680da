// What the third pass finds.

use gmpl_kinds::Object;
use gmpl_syntax::SyntaxFault;
use sqlite_items::Items;

/// The objects that the statements before the first bad one declare, in order, and its fault.
#[derive(Drop)]
pub struct Judgement {
    pub objects: Items<Object>,
    pub fault: Option<SyntaxFault>,
}
