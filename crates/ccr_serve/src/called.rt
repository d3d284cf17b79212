//! What a server is called for: a command, a round, a turn.
ghost use Rattle.std.specs.Prelude.{◌≡◌, [], ◌∷◌, true, false, IfOk, Err};
ghost use Rattle.ccr_task.specs.Places.{places_data};
ghost use Rattle.ccr_core.specs.Cores.{core_data};
ghost use Rattle.ccr_core.specs.Commands.{command_data};
ghost use Rattle.ccr_serve.specs.Items as item;
ghost use Rattle.ccr_serve.specs.Noted.{NotesTurn};
ghost use Rattle.ccr_serve.specs.Runs.{Round};
ghost use Rattle.ccr_serve.specs.Serving.{ItemsOf};
ghost use Rattle.ccr_serve.specs.Views.{is_running, CommitsOnce, IsKept, bare_view};
ghost use Rattle.ccr_serve.specs.declared.fault.ServeFault.TheVariants.{Closed};
ghost use Rattle.ccr_serve.specs.Served.{Serving, Came, AfterItems, AfterCommand};

use crate::fault::ServeFault;
use crate::server::Server;
use ccr_core::Command;
use ccr_history::Storage;
use ccr_lines::{Lines, Show};
use ccr_process::Runner;
use ccr_task::Shelf;

impl<R: Runner, S: Shelf, T: Storage> Server<R, S, T> {
    /// Does what is commanded: the exit status. Its lines are printed as what they tell of is stored; what changes nothing is
    /// shown by what is given for it.
    ///
    /// The statuses are 0, 1 for what came to nothing (a check without versions, a build that didn't succeed, or one
    /// without a certificate), and 3 where a search would go over the budget. A command that is refused does nothing:
    /// `Core` where there is no pipeline, no such resource or job, or where the core refuses its event; `Read`, `File`,
    /// `BadPin`. `TurnsUsedUp` where a build still runs after 10,000,000 turns beside those of the rounds.
    ///
    /// Early ends: `NoMemory` if out of memory, and the server goes on; `Store` where the storage failed, and
    /// the server has closed; `Closed` where it had closed before, and nothing is done.
    pub fn command<V: Show, O: Lines>(
        &mut self,
        show: &V,
        command: &Command,
        out: &mut O,
    ) -> Result<u8, ServeFault>
        requires kept { IsKept (bare_view R.Runner S.Shelf T.Storage self.old) }
        ensures came { self.old.closed ≡ false → Came R.Runner S.Shelf T.Storage O.Lines
            (command_data command.now) result self.old self.new out.old out.new }
        ensures closed { self.old.closed ≡ true
            → (result ≡ Err Closed) × (self.new ≡ self.old) × (out.new ≡ out.old) }
        ensures after { AfterCommand R.Runner S.Shelf T.Storage O.Lines result self.old self.new out.old out.new }
    {
        if self.closed {
            return Err(ServeFault::Closed);
        }
        // What a core keeps says that it stands for a state, of which a refusal tells.
        self.core.rules();
        match command {
            Command::SetPipeline(path) => self.set_pipeline(path.as_str(), out),
            Command::CheckResource(resource) => self.check_resource(resource.as_str(), out),
            Command::PinResource(resource, pin) => {
                self.pin_resource(resource.as_str(), pin.as_str(), out)
            }
            Command::UnpinResource(resource) => self.unpin_resource(resource.as_str(), out),
            Command::DisableResourceVersion(resource, place) => {
                self.disable_version(resource.as_str(), *place, out)
            }
            Command::EnableResourceVersion(resource, place) => {
                self.enable_version(resource.as_str(), *place, out)
            }
            Command::TriggerJob(job) => self.trigger_job(job.as_str(), out),
            Command::Run(rounds) => self.run(*rounds, out),
            Command::Show(what) => self.show(show, what, out),
        }
    }

    /// A round: a check of each resource, a schedule of each job, and then as many turns as builds run.
    ///
    /// Early ends: `NoMemory`, `Store` and `Closed` as at a command, and no other.
    pub fn round<O: Lines>(&mut self, out: &mut O) -> Result<(), ServeFault>
        requires kept { IsKept (bare_view R.Runner S.Shelf T.Storage self.old) }
        ensures served { self.old.closed ≡ false → Serving R.Runner S.Shelf T.Storage O.Lines
            Round result self.old self.new out.old out.new }
        ensures closed { self.old.closed ≡ true
            → (result ≡ Err Closed) × (self.new ≡ self.old) × (out.new ≡ out.old) }
        ensures after { AfterItems R.Runner S.Shelf T.Storage O.Lines self.old.closed result
            self.old self.new out.old out.new }
    {
        if self.closed {
            return Err(ServeFault::Closed);
        }
        self.go_round(out)
    }

    /// A turn: what the build asks whose turn it is, is answered, and one commit stores what that changed. False where no
    /// build runs; then nothing is done.
    ///
    /// Early ends: `NoMemory`, `Store` and `Closed` as at a command, and no other.
    pub fn turn<O: Lines>(&mut self, out: &mut O) -> Result<bool, ServeFault>
        requires kept { IsKept (bare_view R.Runner S.Shelf T.Storage self.old) }
        ensures served { self.old.closed ≡ false → Serving R.Runner S.Shelf T.Storage O.Lines
            (ItemsOf (item.turn ∷ [])) result self.old self.new out.old out.new }
        ensures some { IfOk result (λ served. served ≡ is_running (core_data self.old.core)) }
        ensures once { let view = bare_view R.Runner S.Shelf T.Storage in
            CommitsOnce result (view self.old) (view self.new) }
        ensures noted { NotesTurn result (places_data self.old.places) (core_data self.old.core) self.old.last
            (R.pairs self.old.runner) (R.pairs self.new.runner) (S.calls self.old.shelf)
            (O.notes out.old) (O.notes out.new) }
        ensures closed { self.old.closed ≡ true
            → (result ≡ Err Closed) × (self.new ≡ self.old) × (out.new ≡ out.old) }
        ensures after { AfterItems R.Runner S.Shelf T.Storage O.Lines self.old.closed result
            self.old self.new out.old out.new }
    {
        if self.closed {
            return Err(ServeFault::Closed);
        }
        self.take_turn(out)
    }
}
