//! In which order places that ascend are looked at: the most preferred first.

ghost use Rattle.std.specs.Prelude.{◌≡◌, ◌<◌, ◌≤◌, length, slice_index};
ghost use Rattle.std.specs.List.Sorted.{IsPartitionPoint};
ghost use Rattle.ccr_choice.specs.Ascending.{AreAscending, AreRising};
ghost use Rattle.ccr_index.specs.Ranks.{ranked, AreRankedOf, AreRankedIn};

/// Positions of places that ascend. Of those below `to`, the ones from `above` on come first, in ascending order, and then the
/// others, in descending order.
#[derive(Clone, Copy)]
pub(crate) struct Ranks {
    above: usize,
    pub(crate) to: usize,
}

impl Ranks {
    /// The position of this rank, the most preferred place having rank 0.
    pub(crate) fn position(&self, rank: usize) -> usize
        requires above { self.now.above ≤ self.now.to }
        requires rank { rank < self.now.to }
        ensures value { result ≡ ranked self.now.above self.now.to rank }
        ensures below { result < self.now.to }
    {
        if rank < self.to - self.above {
            self.above + rank
        } else {
            self.to - 1 - rank
        }
    }
}

/// The ranks of places that ascend, where this place is kept for their input.
pub(crate) fn ranks_of(after: Option<u32>, places: &[u32]) -> Ranks
    requires { AreRising places.now }
    ensures { AreRankedOf after places.now result.above result.to }
{
    let to = places.len();
    let above = match after {
        Some(kept) => places.partition_point(|p| *p <= kept),
        None => to,
    };
    Ranks { above, to }
}

/// The ranks of the places of a scope among pairs that ascend.
pub(crate) fn ranks_in(after: Option<u32>, pairs: &[(u32, u32)], scope: u32) -> Ranks
    requires { AreAscending pairs.now }
    ensures { AreRankedIn after pairs.now scope result.above result.to }
{
    let to = pairs.partition_point(|q| q.0 <= scope);
    let above = match after {
        Some(kept) => pairs.partition_point(|q| q.0 < scope || (q.0 == scope && q.1 <= kept)),
        None => to,
    };
    Ranks { above, to }
}
