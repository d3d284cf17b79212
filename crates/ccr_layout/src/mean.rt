//! The mean of heights.

ghost use Rattle.std.specs.Prelude.{◌≡◌, length, map, slice_set, IfOk};
ghost use Rattle.ccr_layout.specs.Means.{nothing, mean_of, joined, mean_got, mean_in};

use std::alloc::{AllocError, Global};

/// The mean of heights that are added one by one.
#[derive(Clone, Copy, Drop)]
pub(crate) struct Mean {
    pub(crate) sum: u64,
    pub(crate) count: u64,
}

impl Mean {
    ghost use Rattle.std.specs.Prelude.{◌≡◌};
    ghost use Rattle.ccr_layout.specs.Means.{mean_got};

    pub(crate) const EMPTY: Mean = Mean { sum: 0, count: 0 };

    /// The mean, rounded down, or none where nothing was added.
    pub(crate) fn get(self) -> Option<u32>
        ensures { result ≡ mean_got self }
    {
        if self.count == 0 {
            None
        } else {
            Some((self.sum / self.count).min(u32::MAX as u64) as u32)
        }
    }
}

/// The mean of one height.
fn mean_of(height: u32) -> Mean
    ensures { result ≡ mean_of height }
{
    Mean {
        sum: height as u64,
        count: 1,
    }
}

/// All that two have.
fn joined(one: Mean, other: Mean) -> Mean
    ensures { result ≡ joined one other }
{
    Mean {
        sum: one.sum.saturating_add(other.sum),
        count: one.count.saturating_add(other.count),
    }
}

/// What was added for a node.
pub(crate) fn mean_at(means: &[Mean], node: usize) -> Mean
    ensures { result ≡ mean_in means.now node }
{
    means.get(node).copied().unwrap_or(Mean::EMPTY)
}

/// Adds another mean for a node.
pub(crate) fn join_at(means: &mut Vec<Mean>, node: usize, other: Mean)
    ensures value { means.new.items ≡ slice_set means.old.items node (joined (mean_in means.old.items node) other) }
    ensures long { length means.new.items ≡ length means.old.items }
{
    if node < means.len() {
        means[node] = joined(means[node], other);
    }
}

/// Adds a height for a node.
pub(crate) fn add_at(means: &mut Vec<Mean>, node: usize, height: u32)
    ensures value { means.new.items
        ≡ slice_set means.old.items node (joined (mean_in means.old.items node) (mean_of height)) }
    ensures long { length means.new.items ≡ length means.old.items }
{
    join_at(means, node, mean_of(height));
}

/// Forgets what was added for a node.
pub(crate) fn clear_at(means: &mut Vec<Mean>, node: usize)
    ensures value { means.new.items ≡ slice_set means.old.items node nothing }
    ensures long { length means.new.items ≡ length means.old.items }
{
    if node < means.len() {
        means[node] = Mean::EMPTY;
    }
}

/// The mean of each node.
pub(crate) fn means_of(alloc: Global, means: &[Mean]) -> Result<Vec<Option<u32>>, AllocError>
    ensures value { IfOk result (λ heights. heights.items ≡ map mean_got means.now) }
    ensures long { IfOk result (λ heights. length heights.items ≡ length means.now) }
{
    means.iter().map(|mean| mean.get()).collect(alloc)
}
