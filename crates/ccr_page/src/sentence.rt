//! Sentences, word by word.

ghost use Rattle.std.specs.Prelude.{OnOk, string_bytes};
ghost use Rattle.ccr_page.specs.Pieces.{Adds};
ghost use Rattle.ccr_page.specs.Sentences.{anchor, build_anchor, row_anchor, version_pieces, word_pieces, sentence};

use crate::data::{Version, Word};
use crate::piece::Piece::{Cut, Isolated, Markup, Number, Shown};
use crate::piece::push;
use std::alloc::AllocError;

/// Adds a version, in a few letters.
fn push_version<'a>(out: &mut Vec<u8>, version: &'a Version) -> Result<(), AllocError>
    ensures { OnOk result (Adds out.old.items out.new.items (version_pieces version.now)) }
{
    push(
        out,
        &[
            Markup("<code title=\""),
            Cut(&version.key, 160),
            Markup("\">"),
            Cut(&version.short, 18),
            Markup("</code>"),
        ],
    )
}

/// Adds a word that leads to a job or a resource: this markup, its position, and its name.
pub(crate) fn push_anchor<'a>(
    out: &mut Vec<u8>,
    before: &'static str,
    position: usize,
    after: &'static str,
    name: &'a String,
) -> Result<(), AllocError>
    ensures { OnOk result (Adds out.old.items out.new.items (anchor before.now position after.now (string_bytes name.now))) }
{
    push(
        out,
        &[
            Markup(before),
            Number(position as u64),
            Markup(after),
            Cut(name, 40),
            Markup("</a>"),
        ],
    )
}

/// Adds a build that has a row.
fn push_build<'a>(
    out: &mut Vec<u8>,
    position: usize,
    number: u32,
    name: &'a String,
) -> Result<(), AllocError>
    ensures { OnOk result (Adds out.old.items out.new.items (build_anchor position number (string_bytes name.now))) }
{
    push(
        out,
        &[
            Markup("<a href=#b"),
            Number(position as u64),
            Markup("-"),
            Number(number as u64),
            Markup(">"),
            Cut(name, 40),
            Markup(" "),
            Number(number as u64),
            Markup("</a>"),
        ],
    )
}

/// Adds a build that has a row, by these words.
fn push_row<'a>(
    out: &mut Vec<u8>,
    position: usize,
    number: u32,
    words: &'a String,
) -> Result<(), AllocError>
    ensures { OnOk result (Adds out.old.items out.new.items (row_anchor position number (string_bytes words.now))) }
{
    push(
        out,
        &[
            Markup("<a href=#b"),
            Number(position as u64),
            Markup("-"),
            Number(number as u64),
            Markup(">"),
            Shown(words),
            Markup("</a>"),
        ],
    )
}

/// Adds a word.
fn push_word<'a>(out: &mut Vec<u8>, word: &'a Word) -> Result<(), AllocError>
    ensures { OnOk result (Adds out.old.items out.new.items (word_pieces word.now)) }
{
    match word {
        Word::Plain(text) => push(out, &[Shown(text)]),
        Word::Text(text, most) => push(out, &[Cut(text, *most)]),
        Word::Name(name, most) => push(out, &[Isolated(name, *most)]),
        Word::Job(position, name) => push_anchor(out, "<a href=#j", *position, ">", name),
        Word::Resource(position, name) => push_anchor(out, "<a href=#r", *position, ">", name),
        Word::Build(position, number, name) => push_build(out, *position, *number, name),
        Word::Past(name, number) => {
            push(
                out,
                &[Isolated(name, 40), Markup(" "), Number(*number as u64)],
            )
        }
        Word::Row(position, number, words) => push_row(out, *position, *number, words),
        Word::Version(version) => push_version(out, version),
        Word::Pin(pin) => push(out, &[Markup("<code>"), Cut(pin, 60), Markup("</code>")]),
    }
}

/// Adds a sentence.
pub(crate) fn push_sentence(out: &mut Vec<u8>, words: &[Word]) -> Result<(), AllocError>
    ensures { OnOk result (Adds out.old.items out.new.items (sentence words.now)) }
{
    for word in words {
        push_word(out, word)?;
    }
    Ok(())
}
