//! What is told last, of all that was printed and told.
ghost use Rattle.std.specs.Prelude.{◌≡◌, map, option_map, string_bytes};
ghost use Rattle.ccr_run.specs.Heard.{heard_data};
ghost use Rattle.ccr_run.specs.Last.{AreRead, TellsLast, silent_lines, untraced_lines};
ghost use Rattle.ccr_run.specs.Last as spec;
ghost use Rattle.ccr_run.specs.Writers.{GetsLines};

use crate::errors::Errors;
use crate::heard::Heard;
use crate::kept::Kept;
use crate::typed::has_word;
use std::io::Write;
use std::str::from_utf8;

/// The last line of a text.
fn last_line(text: &[u8]) -> &[u8]
    ensures { result.now ≡ spec.last_line text.now }
{
    let mut begin = 0;
    for at in 0..text.len() {
        if text[at] == b'\n' {
            begin = at + 1;
        }
    }
    &text[begin..]
}

/// The build that errored by the last line of a text, if one did.
fn errored_in(text: &[u8]) -> Option<&[u8]>
    ensures { option_map (λ build. build.now) result ≡ spec.errored_in text.now }
{
    match text.strip_suffix(b" errored\n") {
        Some(before) => Some(last_line(before)),
        None => None,
    }
}

/// Whether a line is about a build.
fn is_about(build: &[u8], note: &[u8]) -> bool
    ensures { result ≡ spec.is_about build.now note.now }
{
    match note.strip_prefix(build) {
        Some(rest) => rest.starts_with(b": "),
        None => false,
    }
}

/// Whether a line is about a build.
fn is_noted(notes: &[Vec<u8>], build: &[u8]) -> bool
    ensures { result ≡ spec.is_noted (map (λ n. n.items) notes.now) build.now }
{
    for note in notes {
        if is_about(build, note) {
            return true;
        }
    }
    false
}

/// The first build that errored by one of these texts, and that no line is about.
fn silent_in<'t>(notes: &[Vec<u8>], texts: &'t [Vec<u8>]) -> Option<&'t [u8]>
    ensures { option_map (λ build. build.now) result
        ≡ spec.silent_in (map (λ n. n.items) notes.now) (map (λ t. t.items) texts.now) }
{
    for text in texts {
        match errored_in(text) {
            Some(build) if !is_noted(notes, build) => return Some(build),
            _ => {}
        }
    }
    None
}

/// The first build that errored and that no line is about, if all lines are known.
fn silent_build<'t>(printed: &'t Kept, noted: &Kept) -> Option<&'t [u8]>
    ensures { option_map (λ build. build.now) result ≡ spec.silent_build printed.now noted.now }
{
    if printed.is_lost() || noted.is_lost() {
        None
    } else {
        silent_in(noted.texts(), printed.texts())
    }
}

/// These bytes as a text, if they are in UTF-8.
fn read(bytes: Option<&[u8]>) -> Option<&str>
    ensures { AreRead (option_map (λ bytes. bytes.now) bytes.entry) (option_map (λ text. text.now) result) }
{
    let Some(bytes) = bytes else {
        return None;
    };
    match from_utf8(bytes) {
        Ok(text) => Some(text),
        Err(_) => None,
    }
}

/// Says what to do about a build that errored and of which no line says why, if there is one.
fn tell_silent<E: Write>(errors: &mut Errors<E>, build: Option<&str>)
    ensures { GetsLines (silent_lines (option_map (λ build. build.now) build.entry)) errors.old errors.new }
{
    if let Some(build) = build {
        errors.say(format_args!(
            "hint: {build}: no line says why it errored. A task may have an input that no step before it gives: of \
             the pipeline's own tasks ccr_run validate-pipeline FILE names it; of a task's file, compare its inputs \
             with the gets and outputs before it"
        ));
    }
}

/// Says what to do about a trace that shows nothing.
fn tell_untraced<E: Write>(errors: &mut Errors<E>, words: &[String], is_done: bool, printed: &Heard)
    ensures { GetsLines (untraced_lines (map string_bytes words.now) is_done (heard_data printed.now))
        errors.old errors.new }
{
    if is_done && !printed.is_used && has_word(words, "trace") {
        errors.say(
            "hint: no build has taken or moved this version: resource-versions NAME shows which there are, and how \
             they are written",
        );
    }
}

/// Says last what to do, by what was printed, and what was told beside it: about a build that errored and of which no line
/// says why, and about a trace that was done and shows nothing.
pub fn tell_last<E: Write>(
    errors: &mut Errors<E>,
    printed: &Heard,
    noted: &Heard,
    words: &[String],
    is_done: bool,
)
    ensures { TellsLast (map string_bytes words.now) is_done (heard_data printed.now) (heard_data noted.now)
        errors.old errors.new }
{
    let build = read(silent_build(&printed.kept, &noted.kept));
    tell_silent(errors, build);
    tell_untraced(errors, words, is_done, printed);
}
