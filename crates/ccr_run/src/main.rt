//! `ccr_run`: the pipeline server's program.
//!
//! It reads its words, opens the database, has a server do the command, and ends with the status of that. Lines go to
//! standard output as they come; a refusal, with a hint below it, to standard error. What a command does is said by the
//! contract of [`Server::command`](ccr_serve::Server::command). That a build be aborted is asked beside the server, and
//! opens no database. A look opens none either: it reads the files, and shows what is stored in them; and a page is by a look.
//!
//! `main` alone has the runtime. It makes what starts programs, holds directories, opens the database and prints, and gives
//! these to [`answer`](answer::answer), whose contract says what they were used for, and which status the program ends with.
#![tactic(auto)]

mod abort;
mod advice;
mod advising;
mod answer;
mod asked;
mod clock;
mod database;
mod errors;
mod failure;
mod found;
mod heard;
mod hint;
mod kept;
mod lacking;
mod last;
mod left;
mod look;
mod naming;
mod obey;
mod opener;
mod opening;
mod order;
mod page;
mod refusal;
mod run;
mod tell;
mod telling;
mod topic;
mod typed;
mod unmet;

use advising::Advising;
use answer::{Answered, answer};
use ccr_lines::Printed;
use ccr_process::Machine;
use ccr_task::Folders;
use clock::time_now;
use errors::Errors;
use heard::{Heard, Hearing};
use lacking::tell_lacking;
use last::tell_last;
use left::{Left, Tools};
use naming::Naming;
use opener::Opener;
use opening::HostFiles;
use order::{Misuse, Ordered, ordered_by};
use sqlite::Unknown;
use std::io::{ErrorKind, Write};
use std::process::ExitCode;
use std::{env, io};
use tell::tell_misuse;
use telling::Telling;
use topic::Topic;
use unmet::tell_unmet;

/// The fault of words that can't be read: one of them is no text, or memory was refused.
fn misuse_of(error: &io::Error) -> Misuse {
    if error.kind() == ErrorKind::OutOfMemory {
        Misuse::NoMemory
    } else {
        Misuse::NotText
    }
}

/// The words that the program was started with, its own name first.
fn words(rt: &HostRuntime) -> Result<Vec<String>, Misuse> {
    match env::args(rt) {
        Ok(words) => Ok(words.collect::<Vec<String>>(rt.alloc())?),
        Err(error) => Err(misuse_of(&error)),
    }
}

/// Answers the words with the programs, the directories and the files of this machine, as they are: nothing is known of
/// them. Lines go to one writer, and what is told of steps to another one. What it has set may have a hint. Whether it
/// ended with status 0 is handed on, too.
fn answer_by<W: Write + Drop, E: Write + Drop>(
    rt: &HostRuntime,
    words: &[String],
    lines: W,
    notes: E,
) -> (ExitCode, bool) {
    let alloc = rt.alloc();
    let tools = Tools {
        runner: Naming::new(alloc, Machine::new(rt, alloc), rt.stderr()),
        shelf: Folders::new(rt, alloc),
    };
    let mut opener = Opener::new(HostFiles::new(rt), Unknown);
    let mut out = Printed::new(alloc, lines, notes);
    let mut telling = Telling::new(alloc, rt.stderr());
    let clock = time_now(rt, alloc);
    let Answered { code, done } = answer(
        alloc,
        words,
        clock.as_deref(),
        tools,
        &mut opener,
        &mut out,
        &mut telling,
        rt,
    );
    let is_done = matches!(&done.status, Ok(0));
    if is_done && !is_silent(rt) {
        tell_set(rt, words, &done.left);
    }
    (code, is_done)
}

/// Whether nothing is to be said of what to do about what is printed of checks and builds: whoever starts the program says it.
fn is_silent(rt: &HostRuntime) -> bool {
    match env::var(rt, "CCR_HINTS") {
        Ok(word) => word.as_str() == "no",
        Err(_) => false,
    }
}

/// Says what to do about what a command has set, by the server that it leaves: about a pin that no version meets, and
/// about the types of a pipeline whose directory isn't there.
fn tell_set<R, F, T, C>(rt: &HostRuntime, words: &[String], left: &Left<R, F, T, C>) {
    let alloc = rt.alloc();
    let Some(core) = left.core() else {
        return;
    };
    let Ok(Ordered::Command(order)) = ordered_by(alloc, words) else {
        return;
    };
    let options = order.options;
    let mut errors = Errors::new(alloc, rt.stderr());
    tell_unmet(&mut errors, &order.command, core);
    // A launcher may have the programs where this machine has none.
    if options.launcher.is_none() {
        let mut shelf = Folders::new(rt, alloc);
        let _ = tell_lacking(
            alloc,
            &mut errors,
            &mut shelf,
            options.types,
            &order.command,
            core,
        );
    }
}

/// Answers the words in the same way, and says last what both outputs together tell.
fn answer_heard<W: Write + Drop, E: Write + Drop>(
    rt: &HostRuntime,
    words: &[String],
    lines: W,
    notes: E,
) -> ExitCode {
    let alloc = rt.alloc();
    let mut lines = Hearing::new(lines, Heard::new(alloc, " made\n", " errored\n"));
    let mut notes = Hearing::new(notes, Heard::new(alloc, "", ": "));
    let (code, is_done) = answer_by(rt, words, &mut lines, &mut notes);
    if !is_silent(rt) {
        let mut errors = Errors::new(alloc, rt.stderr());
        tell_last(&mut errors, &lines.heard, &notes.heard, words, is_done);
    }
    code
}

/// Passes on to a writer, and says on standard error what to do about a line, unless the words or the environment are
/// against it.
fn advise<W, E: Write>(
    rt: &HostRuntime,
    words: &[String],
    writer: W,
    errors: E,
    topic: Topic,
) -> Advising<W, E> {
    let mute = is_silent(rt) || topic.is_silent(words);
    Advising::new(rt.alloc(), writer, errors, topic, mute)
}

/// Answers the words, and says what to do about what is printed of checks and builds.
fn answer_here(rt: &HostRuntime, words: &[String]) -> ExitCode {
    let out = io::writer(rt);
    let out = advise(rt, words, out, rt.stderr(), Topic::CheckNotJson);
    let out = advise(rt, words, out, rt.stderr(), Topic::CheckWrongKind);
    let out = advise(rt, words, out, rt.stderr(), Topic::CheckNotText);
    let out = advise(rt, words, out, rt.stderr(), Topic::CheckFolder);
    let out = advise(rt, words, out, rt.stderr(), Topic::NoneSatisfies);
    let out = advise(rt, words, out, rt.stderr(), Topic::NoneAllowed);
    let out = advise(rt, words, out, rt.stderr(), Topic::NonePassed);
    let out = advise(rt, words, out, rt.stderr(), Topic::BuildErrored);
    let told = rt.stderr();
    let told = advise(rt, words, told, rt.stderr(), Topic::StepNotJson);
    let told = advise(rt, words, told, rt.stderr(), Topic::StepWrongKind);
    let told = advise(rt, words, told, rt.stderr(), Topic::StepNoVersion);
    let told = advise(rt, words, told, rt.stderr(), Topic::StepNotText);
    let told = advise(rt, words, told, rt.stderr(), Topic::FileNotJson);
    let told = advise(rt, words, told, rt.stderr(), Topic::FileUnread);
    let told = advise(rt, words, told, rt.stderr(), Topic::NoTask);
    let told = advise(rt, words, told, rt.stderr(), Topic::StepNotStarted);
    let told = advise(rt, words, told, rt.stderr(), Topic::TaskNotStarted);
    let told = advise(rt, words, told, rt.stderr(), Topic::StepStatus);
    let told = advise(rt, words, told, rt.stderr(), Topic::StepFolder);
    answer_heard(rt, words, out, told)
}

fn main(rt: HostRuntime) -> ExitCode {
    match words(&rt) {
        Ok(words) => answer_here(&rt, &words),
        Err(misuse) => tell_misuse(&rt, &[], &misuse),
    }
}
