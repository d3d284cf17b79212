//! Programs of checks that don't start are named, and so is a launcher of them.
ghost use Rattle.std.specs.Prelude.{◌≡◌, ◌∷◌, [], false};
ghost use Rattle.ccr_process.specs.Ends.{end_data};
ghost use Rattle.ccr_process.specs.Launches.{launch_data};
ghost use Rattle.ccr_run.specs.Kept.{nothing_kept, Keeps};
ghost use Rattle.ccr_run.specs.Named.{hint_line, is_unstarted};
ghost use Rattle.ccr_run.specs.Named as spec;
ghost use Rattle.ccr_run.specs.Writers.{GetsLines};

use crate::errors::Errors;
use crate::kept::Kept;
use ccr_process::{Ended, Launch, Runner};
use std::alloc::Global;
use std::io::Write;

/// Has a runner run launches, and names the program of a check that didn't start to a writer, as standard error, or the
/// launcher that was to start it: the line on standard output says only that one didn't. Each is named once. The server
/// itself names a step's program that didn't start.
#[derive(Drop)]
pub struct Naming<R, E: Write> {
    runner: R,
    errors: Errors<E>,
    // The programs that were named.
    named: Kept,
}

impl<R, E: Write> Naming<R, E> {
    /// Has this runner run launches, and names programs to this writer.
    pub fn new(alloc: Global, runner: R, errors: E) -> Naming<R, E>
        ensures runner { result.runner ≡ runner }
        ensures errors { result.errors ≡ record { got = E.contents errors; failed = false } }
        ensures named { result.named ≡ nothing_kept }
    {
        Naming {
            runner,
            errors: Errors::new(alloc, errors),
            named: Kept::new(alloc),
        }
    }
}

/// Whether what is started is a check: of all whose output is kept, its program alone has no argument, and a launcher of it
/// has the first word `check`. The first argument of a get and of a put begins with a slash.
fn is_check(launch: &Launch) -> bool
    ensures { result ≡ spec.is_check (launch_data launch.now) }
{
    let is_named = match launch.args.first() {
        Some(word) => word.as_str() == "check",
        None => true,
    };
    launch.keep && is_named
}

/// Whether a program did not start.
fn is_unstarted(end: &Ended) -> bool
    ensures { result ≡ is_unstarted (end_data end.now) }
{
    matches!(end, Ended::NotStarted)
}

/// Whether the program of a launch was named before, as far as that is known.
fn is_known(launch: &Launch, named: &Kept) -> bool
    ensures { result ≡ spec.is_known (launch_data launch.now) named.now }
{
    named.is_lost() || named.has(launch.program.as_bytes())
}

/// Whether a launch that ended so is named.
fn is_named(launch: &Launch, end: &Ended, named: &Kept) -> bool
    ensures { result ≡ spec.is_named (launch_data launch.now) (end_data end.now) named.now }
{
    is_check(launch) && is_unstarted(end) && !is_known(launch, named)
}

impl<R, E: Write> Naming<R, E> {
    /// Names a program that did not start. An error of the writer is noted, and changes nothing else.
    fn name(&mut self, program: &str)
        ensures named { GetsLines (hint_line program.now ∷ []) self.old.errors self.new.errors }
        ensures kept { Keeps program.now self.old.named self.new.named }
        ensures runner { self.new.runner ≡ self.old.runner }
    {
        self.errors.say(format_args!(
            "hint: {program} didn't start; is it there, and executable, and is the program of its first line (#!) \
             there?"
        ));
        self.named.keep(program.as_bytes());
    }
}

impl<R: Runner, E: Write> Runner for Naming<R, E> {
    ghost use Rattle.std.specs.Prelude.{◌≡◌, []};
    ghost use Rattle.ccr_process.specs.Ends.{end_data};
    ghost use Rattle.ccr_process.specs.Launches.{launch_data};
    ghost use Rattle.ccr_process.specs.Runs.{AddsPair};
    ghost use Rattle.ccr_run.specs.Named.{hint_about, Remembers};
    ghost use Rattle.ccr_run.specs.Writers.{GetsLines};

    ghost pairs = { λ naming. R.pairs naming.runner };

    fn run(&mut self, launch: &Launch) -> Ended
        ensures added { AddsPair (R.pairs self.old.runner) (launch_data launch.now) (end_data result)
            (R.pairs self.new.runner) }
        ensures hinted { GetsLines (hint_about (launch_data launch.now) (end_data result) self.old.named)
            self.old.errors self.new.errors }
        ensures quiet { hint_about (launch_data launch.now) (end_data result) self.old.named ≡ []
            → self.new.errors ≡ self.old.errors }
        ensures kept { Remembers (launch_data launch.now) (end_data result) self.old.named self.new.named }
    {
        let end = self.runner.run(launch);
        if is_named(launch, &end, &self.named) {
            self.name(launch.program.as_str());
        }
        end
    }
}
