//! Steps: what each event does.
ghost use Rattle.std.specs.Prelude.{◌≡◌, Ok, Err, map, IfOk, IfErr, OnErr};
ghost use Rattle.ccr_history.specs.Edits.{change_data};
ghost use Rattle.ccr_core.specs.Cores.{core_data};
ghost use Rattle.ccr_core.specs.Events.{event_data};
ghost use Rattle.ccr_core.specs.Going.{Changes};
ghost use Rattle.ccr_core.specs.Indexed.{IsIndexed};
ghost use Rattle.ccr_core.specs.Holding.{HasEdits, IsCore, TakesStep};
ghost use Rattle.ccr_core.specs.Kept.{IsEvent};

use crate::event::Event;
use crate::fault::CoreFault;
use crate::parts::Parts;
use crate::reply::Reply;
use ccr_history::Change;
use ccr_steps::Answered;
use std::alloc::Global;

impl Parts {
    /// One step. Where it is refused, nothing changes.
    pub(crate) fn take(&mut self, alloc: Global, event: Event) -> Result<(Reply, Change), CoreFault>
        requires core { IsCore (core_data self.old) }
        requires indexed { IsIndexed self.old }
        ensures step { IfOk result (λ r. TakesStep (core_data self.old) (core_data self.new) (event_data event) (Ok r.0)) }
        ensures change { IfOk result (λ r. Changes r.1.items self.old.history self.new.history) }
        ensures edits { IfOk result (λ r. HasEdits (core_data self.old) (event_data event) (Ok r.0)
            (change_data r.1.items)) }
        ensures refused { IfErr result (λ f. TakesStep (core_data self.old) (core_data self.old)
            (event_data event) (Err f)) }
        ensures unchanged { OnErr result (core_data self.new ≡ core_data self.old) }
        ensures kept { IsEvent (event_data event) }
        ensures budget { self.new.budget ≡ self.old.budget }
        ensures indexed { IsIndexed self.new }
    {
        match event {
            Event::SetPipeline(pipeline) => self.set_pipeline(alloc, pipeline),
            Event::Checked(resource, versions) => self.report(alloc, resource.as_str(), versions),
            Event::Schedule(job) => self.make(alloc, job.as_str(), false),
            Event::Trigger(job) => self.make(alloc, job.as_str(), true),
            Event::Answer(job, number, turn, answered) => {
                self.answer(alloc, job.as_str(), number, Some(turn), answered)
            }
            Event::Abort(job, number) => {
                self.answer(alloc, job.as_str(), number, None, Answered::Aborted)
            }
            Event::Pin(resource, pin) => self.pin(alloc, resource.as_str(), pin),
            Event::Unpin(resource) => self.unpin(alloc, resource.as_str()),
            Event::Disable(resource, place) => self.disable(alloc, resource.as_str(), place),
            Event::Enable(resource, place) => self.enable(alloc, resource.as_str(), place),
            Event::Restart => self.restart(alloc),
        }
    }
}
