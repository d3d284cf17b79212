//! Why a call of the server ends early.

use ccr_core::CoreFault;
use ccr_history::StoreFault;
use ccr_pipeline::ReadFault;

/// Why a call ends early. What it did before stays done, with its lines.
#[derive(Debug, Drop)]
pub enum ServeFault {
    /// A command is refused: no pipeline was set, it names what the pipeline lacks, or the core refuses its event.
    Core(CoreFault),
    /// The storage failed. Every later call answers `Closed`; another server is made of the database.
    Store(StoreFault),
    /// The pipeline's text is refused, with the path of its fault.
    Read(ReadFault),
    /// The pipeline's file can't be read.
    File,
    /// A pin's text is no JSON object of texts.
    BadPin,
    /// Out of memory.
    NoMemory,
    /// The storage failed at an earlier call.
    Closed,
    /// More than 10,000,000 turns were taken after the rounds, and a build still runs.
    TurnsUsedUp,
}
