//! What the next build of a job would be.

use crate::outlook::Outlook;
use ccr_pipeline::Job;

/// A job with what its next build would be.
#[derive(Clone, Copy)]
pub struct NextBuild<'p> {
    pub job: &'p Job,
    pub outlook: Outlook,
}
