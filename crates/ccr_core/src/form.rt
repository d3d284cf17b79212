//! How a command shows what it shows.

/// How a command shows what it shows.
#[derive(Clone, Copy)]
pub enum Form {
    /// Lines.
    Lines,
    /// One JSON text on one line.
    Json,
}
