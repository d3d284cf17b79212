//! Words of sentences.
ghost use Rattle.std.specs.Prelude.{◌≡◌, ◌++◌, ◌∷◌, [], map, codes, decimal, string_bytes, IfOk, OnOk};
ghost use Rattle.ccr_lines.specs.Lines.{status_word};
ghost use Rattle.ccr_overview.specs.Sayings.{joined, separated};
ghost use Rattle.ccr_overview.specs.PageData.{Plain, Cut, Named, ToRow, word_data};

use ccr_history::Status;
use ccr_lines::word_of;
use ccr_page::Word;
use itoa::Buffer;
use std::alloc::{AllocError, Global};

// ---- texts

/// A number behind words.
pub(crate) fn numbered(alloc: Global, words: &str, number: u32) -> Result<String, AllocError>
    ensures { IfOk result (λ t. string_bytes t ≡ words.now ++ decimal number) }
{
    let mut buffer = Buffer::new();
    let mut text = String::from_str(alloc, words)?;
    text.push_str(buffer.format(number))?;
    Ok(text)
}

/// A number between words.
pub(crate) fn counted(
    alloc: Global,
    before: &str,
    number: usize,
    after: &str,
) -> Result<String, AllocError>
    ensures { IfOk result (λ t. string_bytes t ≡ before.now ++ (decimal number ++ after.now)) }
{
    let mut buffer = Buffer::new();
    let mut text = String::from_str(alloc, before)?;
    text.push_str(buffer.format(number))?;
    text.push_str(after)?;
    Ok(text)
}

/// A number, and how its build stands.
pub(crate) fn standing(alloc: Global, number: u32, status: Status) -> Result<String, AllocError>
    ensures { IfOk result (λ t. string_bytes t ≡ decimal number ++ (codes " " ++ status_word status)) }
{
    let mut text = numbered(alloc, "", number)?;
    text.push_str(" ")?;
    text.push_str(word_of(status))?;
    Ok(text)
}

// ---- words

/// Adds words.
pub(crate) fn push_plain(alloc: Global, out: &mut Vec<Word>, words: &str) -> Result<(), AllocError>
    ensures { OnOk result (map word_data out.new.items ≡ map word_data out.old.items ++ Plain words.now ∷ []) }
{
    let words = String::from_str(alloc, words)?;
    out.push(Word::Plain(words))?;
    Ok(())
}

/// Adds a text in so many units.
pub(crate) fn push_text(
    alloc: Global,
    out: &mut Vec<Word>,
    words: &str,
    most: u32,
) -> Result<(), AllocError>
    ensures { OnOk result (map word_data out.new.items ≡ map word_data out.old.items ++ Cut words.now most ∷ []) }
{
    let words = String::from_str(alloc, words)?;
    out.push(Word::Text(words, most))?;
    Ok(())
}

/// Adds a name in so many units.
pub(crate) fn push_name(
    alloc: Global,
    out: &mut Vec<Word>,
    words: &str,
    most: u32,
) -> Result<(), AllocError>
    ensures { OnOk result (map word_data out.new.items ≡ map word_data out.old.items ++ Named words.now most ∷ []) }
{
    let words = String::from_str(alloc, words)?;
    out.push(Word::Name(words, most))?;
    Ok(())
}

/// Adds words that lead to the row of a build of the job at a position.
pub(crate) fn push_row(
    out: &mut Vec<Word>,
    at: usize,
    number: u32,
    words: String,
) -> Result<(), AllocError>
    ensures { OnOk result (map word_data out.new.items
        ≡ map word_data out.old.items ++ ToRow at number (string_bytes words) ∷ []) }
{
    out.push(Word::Row(at, number, words))?;
    Ok(())
}

/// Adds what stands before the thing at a position: nothing before the first.
pub(crate) fn push_separator(
    alloc: Global,
    out: &mut Vec<Word>,
    words: &str,
    position: usize,
) -> Result<(), AllocError>
    ensures { OnOk result (map word_data out.new.items ≡ map word_data out.old.items ++ separated words.now position) }
{
    if position == 0 {
        return Ok(());
    }
    push_plain(alloc, out, words)
}

/// Two parts of a sentence, of which either may be empty.
#[tactic(auto, using(crate::proofs::Joining::joining))]
pub(crate) fn join(
    alloc: Global,
    first: Vec<Word>,
    second: Vec<Word>,
) -> Result<Vec<Word>, AllocError>
    ensures { IfOk result (λ all. map word_data all.items
        ≡ joined (map word_data first.items) (map word_data second.items)) }
{
    if first.is_empty() {
        return Ok(second);
    }
    if second.is_empty() {
        return Ok(first);
    }
    let mut all = first;
    let mut rest = second;
    push_plain(alloc, &mut all, "; ")?;
    all.append(&mut rest)?;
    Ok(all)
}
