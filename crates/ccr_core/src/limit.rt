//! How many builds may run.

/// At most so many builds run at once.
pub const MOST_RUNNING: usize = 64;
