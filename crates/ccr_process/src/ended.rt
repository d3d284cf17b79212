//! How a program ended.
ghost use Rattle.std.specs.Prelude.{◌≡◌, IfOk};
ghost use Rattle.ccr_process.specs.Ends.{end_data};

use std::alloc::AllocError;

/// How a launch ended.
#[derive(Drop)]
pub enum Ended {
    /// The program ended with this status, having written this on its standard output, of at most 1,048,576 bytes;
    /// nothing where the launch doesn't keep it.
    Exit(u8, Vec<u8>),
    /// The signal of this number ended the program; 0 where the system tells none.
    Killed(u8),
    /// The program wasn't started: it isn't there or can't be run, its folder isn't there, or the launch can't be told
    /// to the system.
    NotStarted,
    /// Its input couldn't be written; a program that closes its input unread is no such fault.
    InputFault,
    /// Its output couldn't be read, or its end not be waited for.
    ReadFault,
    /// It wrote more than 1,048,576 bytes where its output is kept, or its output wasn't at its end after
    /// 1,000,000,000 reads.
    OutputTooLong,
    /// Out of memory.
    NoMemory,
}

impl Ended {
    /// A copy of the end.
    pub fn copy(&self) -> Result<Ended, AllocError>
        ensures { IfOk result (λ e. end_data e ≡ end_data self.now) }
    {
        Ok(match self {
            Ended::Exit(status, output) => Ended::Exit(*status, output.clone()?),
            Ended::Killed(signal) => Ended::Killed(*signal),
            Ended::NotStarted => Ended::NotStarted,
            Ended::InputFault => Ended::InputFault,
            Ended::ReadFault => Ended::ReadFault,
            Ended::OutputTooLong => Ended::OutputTooLong,
            Ended::NoMemory => Ended::NoMemory,
        })
    }
}
