//! Builds as they are kept.
ghost use Rattle.std.specs.Prelude.{◌≡◌, [], IfOk};
ghost use Rattle.ccr_history.specs.declared.build.Status.TheVariants.{Running};

use crate::build::Status;
use std::alloc::{AllocError, Global};
use std::marker::Model;

/// A build, with the number of its job in place of the name. Its used places are so many of those of all builds, from
/// this one on.
#[derive(Drop)]
pub(crate) struct Row {
    job: u32,
    number: u32,
    from: usize,
    count: u32,
    status: Status,
    moved: Vec<(u32, u32)>,
}

impl Model for Row {
    ghost use Rattle.ccr_history.specs.Rows.{KeptData};

    ghost Value = { KeptData };

    ghost view = { λ r. record {
      job = r.job;
      number = r.number;
      status = r.status;
      from = r.from;
      count = r.count;
      moved = r.moved.items;
    } };
}

impl Row {
    /// A build as it begins.
    pub(crate) fn new(alloc: Global, job: u32, number: u32, from: usize, count: u32) -> Row
        ensures { result
            ≡ record { job = job; number = number; status = Running; from = from; count = count; moved = [] } }
    {
        Row {
            job,
            number,
            from,
            count,
            status: Status::Running,
            moved: Vec::new(alloc),
        }
    }

    /// The build has ended so, with these pairs by scope and place.
    pub(crate) fn end(&mut self, status: Status, moved: Vec<(u32, u32)>)
        ensures { self.new
            ≡ record {
              job = self.old.job;
              number = self.old.number;
              status = status;
              from = self.old.from;
              count = self.old.count;
              moved = moved.items;
            } }
    {
        self.status = status;
        self.moved = moved;
    }

    /// The number of the build's job.
    pub(crate) fn job(&self) -> u32
        ensures { result ≡ self.now.job }
    {
        self.job
    }

    /// The build's number within its job.
    pub(crate) fn number(&self) -> u32
        ensures { result ≡ self.now.number }
    {
        self.number
    }

    /// How the build stands.
    pub(crate) fn status(&self) -> Status
        ensures { result ≡ self.now.status }
    {
        self.status
    }

    /// Where its used places begin.
    pub(crate) fn from(&self) -> usize
        ensures { result ≡ self.now.from }
    {
        self.from
    }

    /// How many used places it has.
    pub(crate) fn count(&self) -> usize
        ensures { result ≡ self.now.count }
    {
        self.count as usize
    }

    /// The pairs that the build moved, by scope and place.
    pub(crate) fn moved(&self) -> &[(u32, u32)]
        ensures { result.now ≡ self.now.moved }
    {
        &self.moved
    }

    /// A copy of the build.
    pub(crate) fn copy(&self, alloc: Global) -> Result<Row, AllocError>
        ensures { IfOk result (λ r. r ≡ self.now) }
    {
        Ok(Row {
            job: self.job,
            number: self.number,
            from: self.from,
            count: self.count,
            status: self.status,
            moved: Vec::from_slice(alloc, &self.moved)?,
        })
    }
}
