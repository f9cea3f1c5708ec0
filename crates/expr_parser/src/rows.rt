//! Rows of nodes that grow as they are read.
ghost use Rattle.std.specs.Prelude.{◌≡◌, [], ◌∷◌, ◌++◌, IfOk};

use std::alloc::{AllocError, Global};
use tree_lists::Items;

/// A row of one item.
pub fn row_of<T: Drop>(alloc: Global, item: T) -> Result<Items<T>, AllocError>
    ensures { IfOk result (λ row. row ≡ item ∷ []) }
{
    let mut row = Items::new(alloc);
    row.push(item)?;
    Ok(row)
}

/// The row with one item more behind the others.
pub fn with_item<T: Drop>(row: Items<T>, item: T) -> Result<Items<T>, AllocError>
    ensures { IfOk result (λ longer. longer ≡ row ++ item ∷ []) }
{
    let mut longer = row;
    longer.push(item)?;
    Ok(longer)
}
