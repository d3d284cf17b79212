//! Replies, in words.

use ccr_core::{CoreFault, Reply};
use ccr_rows::outcome_name;
use std::alloc::AllocError;

/// So many bytes are enough for the words of each reply and fault.
pub(crate) const MOST_BYTES: usize = 32;

/// Adds the words of a reply.
pub(crate) fn push_reply(text: &mut String, reply: Reply) -> Result<(), AllocError> {
    match reply {
        Reply::Set => text.push_str("Set"),
        Reply::New(count) => write!(text, "New {count}"),
        Reply::Made(number) => write!(text, "Made {number}"),
        Reply::NoneSatisfies => text.push_str("NoneSatisfies"),
        Reply::OverBudget(budget) => write!(text, "OverBudget {budget}"),
        Reply::NotNew => text.push_str("NotNew"),
        Reply::Busy => text.push_str("Busy"),
        Reply::Goes => text.push_str("Goes"),
        Reply::Ends(outcome) => write!(text, "Ends {}", outcome_name(outcome)),
        Reply::Pinned => text.push_str("Pinned"),
        Reply::Unpinned => text.push_str("Unpinned"),
        Reply::Disabled => text.push_str("Disabled"),
        Reply::Enabled => text.push_str("Enabled"),
        Reply::Restarted => text.push_str("Restarted"),
    }
}

/// The word of a fault.
pub(crate) fn fault_name(fault: CoreFault) -> &'static str {
    match fault {
        CoreFault::NoPipeline => "NoPipeline",
        CoreFault::NoJob => "NoJob",
        CoreFault::NoResource => "NoResource",
        CoreFault::NoBuild => "NoBuild",
        CoreFault::BuildsOpen => "BuildsOpen",
        CoreFault::NotWanted => "NotWanted",
        CoreFault::TooManyOpen => "TooManyOpen",
        CoreFault::TableFull => "TableFull",
        CoreFault::NoVersion => "NoVersion",
        CoreFault::NoMemory => "NoMemory",
    }
}
