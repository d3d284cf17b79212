//! Programs of this machine.
ghost use Rattle.std.specs.Prelude.{◌≡◌, ◌<◌, ◌⊎◌, ◌++◌, ◌∷◌, [], false, vec_len, vec_capacity, if◌then◌else◌};
ghost use Rattle.ccr_process.specs.Launches.{launch_data, can_start};
ghost use Rattle.ccr_process.specs.Commands.{IsCommandOf};
ghost use Rattle.ccr_process.specs.Ends.{end_data, HasOutput};
ghost use Rattle.ccr_process.specs.declared.ended.Ended.TheVariants.{NotStarted, NoMemory};
ghost use Rattle.ccr_process.specs.Runs.{machine_pairs, machine_launches, starter_launches, AddsPair, RunsOnce};

use crate::command::{command_of, is_startable};
use crate::ended::Ended;
use crate::launch::Launch;
use crate::pipe::{Input, Output};
use crate::pipes::{GiveFault, TakeFault, give_input, take_output};
use crate::runner::Runner;
use crate::starter::Starter;
use std::alloc::{AllocError, Global};
use std::io::ErrorKind;
use std::os::unix::process::ExitStatusExt;
use std::process::{Child, Command, ExitStatus, OpenProcess, Processes};
use std::snapshot::Snapshot;

/// Starts programs of this machine by a runtime `R`, one at a time, and waits for each.
#[derive(Drop)]
pub struct Machine<R: Processes> {
    starter: Starter<R>,
    alloc: Global,
    // No bytes: the pairs are there for contracts alone.
    done: Vec<(Snapshot<Launch>, Snapshot<Ended>)>,
}

/// Kills a program, waits for it, and gives the end that it has.
fn put_down<P: OpenProcess + Drop>(child: &mut Child<P>, end: Ended) -> Ended
    ensures { result ≡ end }
{
    let _ = child.kill();
    let _ = child.wait();
    end
}

/// The number of the signal that ended a program; 0 where none did.
fn signal_of(status: ExitStatus) -> u8 {
    status
        .signal()
        .and_then(|signal| u8::try_from(signal).ok())
        .unwrap_or(0)
}

/// Gives a program that was started its input, takes its output and waits for it. Programs that fail at a call are put
/// down here.
fn attend<P: OpenProcess + Drop>(
    alloc: Global,
    child: &mut Child<P>,
    input: &[u8],
    keep: bool,
) -> Ended
    ensures { HasOutput keep (end_data result) }
{
    let Some(writer) = child.stdin.take() else {
        return put_down(child, Ended::InputFault);
    };
    let mut writer = Input::new(writer);
    let given = give_input(&mut writer, input);
    drop(writer);
    if let Err(GiveFault::InputFault) = given {
        return put_down(child, Ended::InputFault);
    }
    let Some(reader) = child.stdout.take() else {
        return put_down(child, Ended::ReadFault);
    };
    let mut reader = Output::new(reader);
    let output = match take_output(alloc, &mut reader, keep) {
        Ok(output) => output,
        Err(TakeFault::ReadFault) => return put_down(child, Ended::ReadFault),
        Err(TakeFault::TooLong) => return put_down(child, Ended::OutputTooLong),
        Err(TakeFault::NoMemory) => return put_down(child, Ended::NoMemory),
    };
    let Ok(status) = child.wait() else {
        return put_down(child, Ended::ReadFault);
    };
    match status.code().and_then(|code| u8::try_from(code).ok()) {
        Some(code) => Ended::Exit(code, output),
        None => Ended::Killed(signal_of(status)),
    }
}

/// Starts the command of a launch and sees it to its end.
fn start<R: Processes>(
    starter: &mut Starter<R>,
    alloc: Global,
    command: &mut Command,
    launch: &Launch,
) -> Ended
    requires room { vec_len starter.old.launches < vec_capacity starter.old.launches }
    requires command { IsCommandOf (launch_data launch.now) command.old }
    ensures told { starter_launches starter.new ≡ (if can_start launch.now
        then starter_launches starter.old ++ launch_data launch.now ∷ [] else starter_launches starter.old) }
    ensures output { HasOutput launch.now.keep (end_data result) }
    ensures unstartable { can_start launch.now ≡ false → result ≡ NotStarted }
{
    if !is_startable(launch) {
        return Ended::NotStarted;
    }
    match starter.spawn(command, launch) {
        Ok(mut child) => attend(alloc, &mut child, launch.input.as_slice(), launch.keep),
        Err(error) if error.kind() == ErrorKind::OutOfMemory => Ended::NoMemory,
        Err(_) => Ended::NotStarted,
    }
}

impl<R: Processes> Machine<R> {
    /// A machine that has started nothing yet.
    pub fn new(rt: R, alloc: Global) -> Machine<R>
        ensures pairs { machine_pairs result ≡ [] }
        ensures launches { machine_launches result ≡ [] }
    {
        Machine {
            starter: Starter::new(rt, alloc),
            alloc,
            done: Vec::new(alloc),
        }
    }
}

impl<R: Processes> Runner for Machine<R> {
    ghost pairs = { machine_pairs };

    fn run(&mut self, launch: &Launch) -> Ended
        ensures added { AddsPair (machine_pairs self.old) (launch_data launch.now) (end_data result)
            (machine_pairs self.new) }
        ensures once { RunsOnce (can_start launch.now) (machine_pairs self.old) (machine_launches self.old)
            (launch_data launch.now) (end_data result) (machine_pairs self.new) (machine_launches self.new) }
        ensures output { HasOutput launch.now.keep (end_data result) }
        ensures unstartable { can_start launch.now ≡ false
            → (result ≡ NotStarted) ⊎ (result ≡ NoMemory) }
    {
        if self.done.reserve(1).is_err() || self.starter.make_room().is_err() {
            return Ended::NoMemory;
        }
        let Ok(mut command) = command_of(self.alloc, launch) else {
            return Ended::NoMemory;
        };
        let end = start(&mut self.starter, self.alloc, &mut command, launch);
        let pair = (Snapshot::of(launch), Snapshot::of(&end));
        self.done.push(pair).unwrap();
        end
    }
}
