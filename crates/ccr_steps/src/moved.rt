//! Versions that a build moved.
ghost use Rattle.std.specs.Prelude.{◌≡◌, string_bytes};
ghost use Rattle.ccr_history.specs.TextMap.{key_text};

use ccr_history::Version;

/// A version of a resource that a build fetched for an input, or pushed.
#[derive(Drop)]
pub struct Moved {
    /// The resource's name.
    pub resource: String,
    /// The version.
    pub version: Version,
    pub(crate) key: String,
    // The key is the version's.
    pub(crate) ghost key_of: { string_bytes key ≡ key_text version },
}
