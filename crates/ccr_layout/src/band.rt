//! A column of the picture.

/// A column: first its tabs, then its boxes. All in pixels from the left.
#[derive(Clone, Copy, Drop)]
pub(crate) struct Band {
    /// Where its tabs begin.
    pub(crate) left: u32,
    /// Where its boxes begin.
    pub(crate) inner: u32,
    /// Where its boxes end.
    pub(crate) right: u32,
}

impl Band {
    pub(crate) const NONE: Band = Band {
        left: 0,
        inner: 0,
        right: 0,
    };
}
