//! How a server begins.
ghost use Rattle.std.specs.Prelude.{◌≡◌, ◌≤◌, [], ◌∷◌, false, IfOk, IfErr, OnOk, OnErr};
ghost use Rattle.std.specs.Option.{IfSome};
ghost use Rattle.ccr_history.specs.Counts.{RoseBy};
ghost use Rattle.ccr_proof.specs.declared.proof.TheConstants.{MOST_NODES};
ghost use Rattle.ccr_core.specs.Cores.{core_data};
ghost use Rattle.ccr_core.specs.Resumed.{resumed, IsReadable, IsResumed};
ghost use Rattle.ccr_serve.specs.Noted.{NotesCut};
ghost use Rattle.ccr_serve.specs.Views.{IsReady, bare_view};
ghost use Rattle.ccr_serve.specs.Unopened.{KeepsFromOpening};

use crate::fault::ServeFault;
use crate::notes::tell_cut;
use crate::server::Server;
use ccr_core::Core;
use ccr_history::{History, Storage};
use ccr_lines::Lines;
use ccr_process::Runner;
use ccr_task::{Places, Shelf};
use std::alloc::Global;

/// Why a server isn't opened, with what it was to stand over.
#[derive(Drop)]
pub struct Unopened<R, S, T> {
    /// `NoMemory` if out of memory, or `Store` where the storage failed; nothing else.
    pub fault: ServeFault,
    /// The runner that the server was to have.
    pub runner: R,
    /// The shelf that the server was to have.
    pub shelf: S,
    /// The storage that the server was to have.
    pub storage: T,
}

impl<R: Runner + Drop, S: Shelf + Drop, T: Storage + Drop> Server<R, S, T> {
    /// A server that begins with the history that the storage holds. Each build that runs in it is errored, with
    /// nothing moved, and this is stored, and then told beside the lines; no folder is touched and no program started.
    ///
    /// The caller gives a history whose text `ccr_pipeline::read` accepts, and a budget from 1 to 1,000,000.
    /// An [`Unopened`] hands the runner and the shelf back as they were, and the storage, which holds what it held.
    pub fn open<O: Lines>(
        alloc: Global,
        runner: R,
        shelf: S,
        mut storage: T,
        history: History,
        places: Places,
        budget: u32,
        out: &mut O,
    ) -> Result<Server<R, S, T>, Unopened<R, S, T>>
        requires holds { T.holds storage history }
        requires leaves { T.leaves storage (history ∷ []) }
        requires readable { IfSome history.text IsReadable }
        requires least { 1 ≤ budget }
        requires most { budget ≤ MOST_NODES }
        ensures ready { IfOk result (λ server. IsReady (bare_view R.Runner S.Shelf T.Storage server)) }
        ensures resumed { IfOk result (λ server. IsResumed history budget (core_data server.core)) }
        ensures nobody { IfOk result (λ server. server.last ≡ 0) }
        ensures pairs { IfOk result (λ server. R.pairs server.runner ≡ R.pairs runner) }
        ensures calls { IfOk result (λ server. S.calls server.shelf ≡ S.calls shelf) }
        ensures places { IfOk result (λ server. server.places ≡ places) }
        ensures counted { IfOk result (λ server.
            RoseBy (T.tally storage).commits 1 (T.tally server.storage).commits) }
        ensures same { O.written out.new ≡ O.written out.old }
        ensures waiting { O.waiting out.new ≡ O.waiting out.old }
        ensures cut { OnOk result (NotesCut (resumed history) (O.notes out.old) (O.notes out.new)) }
        ensures quiet { OnErr result (out.new ≡ out.old) }
        ensures only { IfErr result (λ it.
            KeepsFromOpening T.holds T.leaves T.tally history storage it.storage it.fault) }
        ensures runner { IfErr result (λ it. it.runner ≡ runner) }
        ensures shelf { IfErr result (λ it. it.shelf ≡ shelf) }
    {
        history.rules();
        let (core, change) = match Core::resume(alloc, history, budget) {
            Ok(begun) => begun,
            Err(_) => {
                return Err(Unopened {
                    fault: ServeFault::NoMemory,
                    runner,
                    shelf,
                    storage,
                })
            }
        };
        match storage.commit(alloc, &change) {
            Ok(()) => {
                tell_cut(alloc, out, &change);
                Ok(Server {
                    alloc,
                    core,
                    runner,
                    shelf,
                    storage,
                    places,
                    last: 0,
                    closed: false,
                })
            }
            Err(fault) => Err(Unopened {
                fault: ServeFault::Store(fault),
                runner,
                shelf,
                storage,
            }),
        }
    }
}
