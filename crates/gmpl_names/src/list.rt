// Lists that are filled with a known number of items.
ghost use Rattle.std.specs.Prelude.{◌≡◌, [], IfOk};

use sqlite_items::Items;
use std::alloc::{AllocError, Global};

/// The list without an item, with room for so many.
pub fn room_for<T: Drop>(alloc: Global, count: usize) -> Result<Items<T>, AllocError>
    ensures { IfOk result (λ list. list ≡ []) }
{
    Ok(Items::from_vec(Vec::with_capacity(alloc, count)?))
}
