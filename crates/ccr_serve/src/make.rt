//! Events of the core, and what they change in the storage.
ghost use Rattle.std.specs.Prelude.{IfOk, IfErr};
ghost use Rattle.ccr_core.specs.Events.{event_data};
ghost use Rattle.ccr_serve.specs.Views.{IsReady, Made, Unmade, bare_view};

use crate::fault::ServeFault;
use crate::server::Server;
use ccr_core::{CoreFault, Event, Reply};
use ccr_history::Storage;
use ccr_process::Runner;
use ccr_task::Shelf;

impl<R: Runner, S: Shelf, T: Storage> Server<R, S, T> {
    /// Makes an event, and stores what it changes: the core's reply, or its refusal, which is never for lack of memory.
    ///
    /// - `NoMemory` if out of memory; then nothing has changed.
    /// - `Store` where the storage failed; then the server has closed.
    pub(crate) fn make(&mut self, event: Event) -> Result<Result<Reply, CoreFault>, ServeFault>
        requires ready { IsReady (bare_view R.Runner S.Shelf T.Storage self.old) }
        ensures made { let view = bare_view R.Runner S.Shelf T.Storage in
            IfOk result (λ r. Made (event_data event) r (view self.old) (view self.new)) }
        ensures unmade { let view = bare_view R.Runner S.Shelf T.Storage in
            IfErr result (λ fault. Unmade (event_data event) fault (view self.old) (view self.new)) }
    {
        self.core.history().rules();
        match self.core.step(self.alloc, event) {
            Ok((reply, change)) => match self.storage.commit(self.alloc, &change) {
                Ok(()) => Ok(Ok(reply)),
                Err(fault) => {
                    self.closed = true;
                    Err(ServeFault::Store(fault))
                }
            },
            Err(CoreFault::NoMemory) => Err(ServeFault::NoMemory),
            Err(fault) => Ok(Err(fault)),
        }
    }
}
