//! What came of an ask, and what was wrong where that is no success.
ghost use Rattle.std.specs.Prelude.{◌≡◌};
ghost use Rattle.ccr_steps.specs.Asks.{answer_data};
ghost use Rattle.ccr_task.specs.Faulty.{said_data, well, bad};

use crate::fault::ShelfFault;
use ccr_pipeline::ReadFault;
use ccr_protocol::ReplyFault;
use ccr_steps::Answered;

/// What was wrong with a step that isn't a success.
#[derive(Drop)]
pub enum StepFault {
    /// Its program ended with this status, which isn't 0.
    Status(u8),
    /// The signal of this number ended its program; 0 where the system told none.
    Signal(u8),
    /// Its program, at this path, wasn't started.
    NotStarted(String),
    /// The program's input couldn't be written.
    InputFault,
    /// The program's output couldn't be read.
    ReadFault,
    /// The program wrote more than 1,048,576 bytes.
    OutputTooLong,
    /// Its request has more than 65,536 bytes.
    RequestTooLong,
    /// A folder that its program finds couldn't be made or removed.
    FolderFault,
    /// What its program printed is no reply.
    BadReply(ReplyFault),
    /// The task's file can't be read.
    NoFile(ShelfFault),
    /// The task's file is no task.
    NoTask(ReadFault),
    /// The table has no room for the version that was pushed.
    TableFull,
    /// The build was aborted while it waited.
    Aborted,
}

/// What came of an ask: its answer, and what was wrong where that is no success.
#[derive(Drop)]
pub struct Said {
    /// The answer.
    pub answered: Answered,
    /// What was wrong; None where the answer is a success.
    pub fault: Option<StepFault>,
}

impl Said {
    /// An answer that is a success.
    pub(crate) fn well(answered: Answered) -> Said
        ensures { said_data result ≡ well (answer_data answered) }
    {
        Said {
            answered,
            fault: None,
        }
    }

    /// The answer of an ask at which something was wrong.
    pub fn bad(answered: Answered, fault: StepFault) -> Said
        ensures { said_data result ≡ bad (answer_data answered) fault }
    {
        Said {
            answered,
            fault: Some(fault),
        }
    }
}
