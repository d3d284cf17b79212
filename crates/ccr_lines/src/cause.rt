//! Why a check finds nothing.

/// Why a check of a resource finds no list of versions.
#[derive(Clone, Copy, PartialEq, Eq)]
pub enum Cause {
    /// Its request has more than 65,536 bytes.
    RequestTooLong,
    /// The folder of all builds couldn't be made.
    FolderFault,
    /// Its program wasn't started.
    NotStarted,
    /// A signal ended its program.
    Killed,
    /// The program's input couldn't be written.
    InputFault,
    /// The program's output couldn't be read.
    ReadFault,
    /// The program wrote more than 1,048,576 bytes.
    OutputTooLong,
    /// The program ended with this status, which isn't 0.
    Status(u8),
    /// What it printed is no JSON value.
    NotJson,
    /// What it printed is no list of versions.
    WrongKind,
    /// A field of a version isn't a text.
    VersionNotText,
}
