//! Lists without repeats.

ghost use Rattle.std.specs.Prelude.{◌↔◌, ◌≤◌, ℕ, length, IfOk, Contains};
ghost use Rattle.ccr_resolve.specs.Sought.{AreDistinct};

use std::alloc::{AllocError, Global};
use std::collections::HashSet;

/// These positions, each once, in the order in which they stand first.
pub(crate) fn each_once(alloc: Global, list: &[usize]) -> Result<Vec<usize>, AllocError>
    ensures few { IfOk result (λ v. length v.items ≤ length list.now) }
    ensures distinct { IfOk result (λ v. AreDistinct v.items) }
    ensures same { IfOk result (λ v. (k : ℕ) → Contains v.items k ↔ Contains list.now k) }
{
    let mut seen = HashSet::new(alloc);
    let mut once = Vec::new(alloc);
    for k in list {
        if !seen.insert(*k)? {
            continue;
        }
        once.push(*k)?;
    }
    Ok(once)
}
