//! Changes of one edit.
ghost use Rattle.std.specs.Prelude.{◌≡◌, [], ◌∷◌, IfOk};

use ccr_history::{Change, Edit};
use std::alloc::{AllocError, Global};

/// The change that one edit is.
pub(crate) fn change_of(alloc: Global, edit: Edit) -> Result<Change, AllocError>
    ensures { IfOk result (λ change. change.items ≡ edit ∷ []) }
{
    let mut change = Vec::new(alloc);
    change.push(edit)?;
    Ok(change)
}
