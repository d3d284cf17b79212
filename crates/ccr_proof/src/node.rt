//! Refutation trees: why no choice is better than a claim's.

/// A node of a refutation tree.
#[derive(Drop)]
pub enum Node {
    /// This named job, with a child for each of its successful builds, newest first.
    Job(u32, Vec<Node>),
    /// This input has no possible place.
    Empty(u32),
    /// The best places aren't better than the claim's.
    Bounded,
    /// Below a job node: the build of the child at this position, counted from 0, has all that this child's build has, so
    /// this case is that one. The child stands before this one, and is a case of its own.
    Same(u32),
}
