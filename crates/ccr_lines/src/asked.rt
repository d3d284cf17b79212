//! Which choice is asked for, where demands exclude each other.

/// Which choice is asked for.
#[derive(Clone, Copy)]
pub enum Asked<'a> {
    /// Any.
    Any,
    /// One in which this input takes this place, and each input before it none that is worse than its own of these.
    Taking(usize, u32, &'a [u32]),
}
