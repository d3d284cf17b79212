//! One below the other.

ghost use Rattle.std.specs.Prelude.{◌≡◌, ◌≤◌, ℕ, length, All, IfOk, max, slice_index, slice_set};
ghost use Rattle.ccr_layout.specs.Places.{ArePlaced};

use crate::at::{at, set_at};
use crate::wish::wish_at;
use std::alloc::{AllocError, Global};

/// No wish is lower, in pixels. The picture of the greatest pipeline ends at a quarter of it.
const LOWEST: u32 = 10_000_000;

/// How far the next one is below one of this height, in pixels: a slot has the height 0.
fn gap_below(height: u32) -> u32
    ensures low { result ≤ 18 }
    ensures high { 12 ≤ result }
{
    if height == 0 { 12 } else { 18 }
}

/// The tops of nodes in a column, each where it wishes to be, or below the one before.
pub(crate) fn place(
    alloc: Global,
    order: &[usize],
    heights: &[u32],
    wishes: &[u32],
) -> Result<Vec<u32>, AllocError>
    requires few { length order.now ≤ 400 }
    requires low { All (λ h. h ≤ 710) heights.now }
    ensures { IfOk result (λ tops. ArePlaced order.now heights.now tops.items) }
{
    let mut tops = vec![in alloc; 0; heights.len()]?;
    let mut free = 0;
    for node in order {
        let height = at(heights, *node);
        let top = at(wishes, *node).min(LOWEST).max(free);
        set_at(&mut tops, *node, top);
        free = top + height + gap_below(height);
    }
    Ok(tops)
}

/// Notes that a node is so low at least.
fn note_low(tops: &mut Vec<u32>, node: usize, low: u32)
    ensures { tops.new.items ≡ slice_set tops.old.items node (max (slice_index tops.old.items node) low) }
{
    if node < tops.len() {
        tops[node] = tops[node].max(low);
    }
}

/// Moves a node down to here, unless it's lower. No node is moved up.
fn pull(tops: &mut Vec<u32>, node: usize, low: u32)
    ensures long { length tops.new.items ≡ length tops.old.items }
    ensures down { (k : ℕ) → slice_index tops.old.items k ≤ slice_index tops.new.items k }
{
    note_low(tops, node, low);
}

/// The tops of nodes that are moved down to where they wish to be, but not past the next one.
pub(crate) fn pulled(
    alloc: Global,
    order: &[usize],
    heights: &[u32],
    tops: &[u32],
    wishes: &[Option<u32>],
) -> Result<Vec<u32>, AllocError>
    ensures long { IfOk result (λ pulled. length pulled.items ≡ length tops.now) }
    ensures down { IfOk result (λ pulled. (k : ℕ) → slice_index tops.now k ≤ slice_index pulled.items k) }
{
    let mut pulled = tops.to_vec(alloc)?;
    let mut low = u32::MAX;
    for node in order.iter().rev() {
        let height = at(heights, *node);
        let lowest = low.saturating_sub(height).saturating_sub(gap_below(height));
        let wish = wish_at(wishes, *node).unwrap_or(0);
        pull(&mut pulled, *node, wish.min(lowest));
        low = at(&pulled, *node);
    }
    Ok(pulled)
}
