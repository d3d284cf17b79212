//! Lines: a text from the top, one line at a time.

use std::marker::Model;

/// A line, as its words.
#[derive(Drop)]
pub struct Line {
    words: Vec<Word>,
}

impl Model for Line {
    ghost use Rattle.std.specs.Prelude.{List};
    ghost use Rattle.ccr_choice.specs.declared.word.Word.{Word};

    ghost Value = { List Word };

    ghost view = { λ a. a.words.items };
}

/// The lines of a text that are left to read. Contracts see them as the list of these lines.
#[derive(Drop)]
pub struct Lines<'a> {
    rest: &'a [u8],
}

impl<'a> Model for Lines<'a> {
    ghost use Rattle.std.specs.Prelude.{List};
    ghost use Rattle.ccr_choice.specs.declared.word.Word.{Word};

    ghost Value = { List (List Word) };

    ghost use Rattle.ccr_choice.specs.Text.{lines_of};

    ghost view = { λ a. lines_of a.rest.now };
}

ghost use Rattle.std.specs.Prelude.{◌≡◌, ◌<◌, ◌≤◌, ◌==◌, [], ◌∷◌, length, IfOk, IfSome, MatchOption};
ghost use Rattle.std.specs.List.{slice_split};
ghost use Rattle.ccr_choice.specs.Text.{words_of, lines_of, unended};

use crate::word::{Word, word_of};
use std::alloc::{AllocError, Global};

/// The part before the first separator, and what follows it.
fn cut(bytes: &[u8], separator: u8) -> Option<(&[u8], &[u8])>
    ensures cut { MatchOption result
        (slice_split (λ b. b == separator) bytes.now ≡ bytes.now ∷ [])
        (λ x. slice_split (λ b. b == separator) bytes.now ≡ x.0.now ∷ slice_split (λ b. b == separator) x.1.now) }
    ensures shorter { IfSome result (λ x. length x.1.now < length bytes.now) }
{
    for (end, b) in bytes.iter().enumerate() {
        if *b == separator {
            return Some((&bytes[..end], &bytes[end + 1..]));
        }
    }
    None
}

#[tactic(auto, unfolding(crate::specs::Text::words_of))]
fn line_of(alloc: Global, bytes: &[u8]) -> Result<Line, AllocError>
    ensures { IfOk result (λ line. line ≡ words_of bytes.now) }
{
    let mut words = Vec::new(alloc);
    let mut rest = bytes;
    while let Some((word, others)) = cut(rest, b' ') {
        words.push(word_of(word))?;
        rest = others;
    }
    words.push(word_of(rest))?;
    Ok(Line { words })
}

fn unended_line(alloc: Global) -> Result<Line, AllocError>
    ensures { IfOk result (λ line. line ≡ unended) }
{
    let mut words = Vec::new(alloc);
    words.push(Word::Other)?;
    Ok(Line { words })
}

/// The first line of a text, and what follows it; None where nothing is left.
fn first_line(alloc: Global, bytes: &[u8]) -> Result<Option<(Line, &[u8])>, AllocError>
    ensures { IfOk result
        (λ o. MatchOption o (lines_of bytes.now ≡ []) (λ x. lines_of bytes.now ≡ x.0 ∷ lines_of x.1.now)) }
{
    if bytes.is_empty() {
        return Ok(None);
    }
    match cut(bytes, b'\n') {
        Some((line, others)) => {
            let line = line_of(alloc, line)?;
            Ok(Some((line, others)))
        }
        None => {
            let line = unended_line(alloc)?;
            Ok(Some((line, &[])))
        }
    }
}

/// Whether a text has no line.
fn is_blank(bytes: &[u8]) -> bool
    ensures { result ≡ (length (lines_of bytes.now) == 0) }
{
    bytes.is_empty()
}

/// How many line feeds there are, and one more for a last line without its own.
fn line_count(bytes: &[u8]) -> usize
    ensures value { result ≡ length (lines_of bytes.now) }
    ensures small { result ≤ length bytes.now }
{
    let mut count: usize = 0;
    let mut rest = bytes;
    while let Some((_, others)) = cut(rest, b'\n') {
        count += 1;
        rest = others;
    }
    if rest.is_empty() { count } else { count + 1 }
}

impl Line {
    /// The words of the line.
    pub fn words(&self) -> &[Word]
        ensures { result.now ≡ self.now }
    {
        &self.words
    }
}

impl<'a> Lines<'a> {
    /// All lines of a text.
    pub fn new(text: &'a [u8]) -> Self
        ensures { result ≡ lines_of text.now }
    {
        Lines { rest: text }
    }

    /// The next line, which is read with this; None where none is left. A last line without its line feed is one word
    /// that no format has.
    pub fn next(&mut self, alloc: Global) -> Result<Option<Line>, AllocError>
        ensures { IfOk result
            (λ o. MatchOption o ((self.old ≡ []) × (self.new ≡ [])) (λ line. self.old ≡ line ∷ self.new)) }
    {
        match first_line(alloc, self.rest)? {
            Some((line, others)) => {
                self.rest = others;
                Ok(Some(line))
            }
            None => Ok(None),
        }
    }

    /// How many lines are left.
    pub fn count(&self) -> usize
        ensures value { result ≡ length self.now }
        ensures small { result < 9223372036854775808 }
    {
        line_count(self.rest)
    }

    /// Whether no line is left.
    pub fn is_empty(&self) -> bool
        ensures { result ≡ (length self.now == 0) }
    {
        is_blank(self.rest)
    }
}
