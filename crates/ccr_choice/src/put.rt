//! Writing lines.

ghost use Rattle.std.specs.Prelude.{◌≡◌, ◌<◌, ◌++◌, length, OnOk, string_bytes};
ghost use Rattle.ccr_choice.specs.Text.{spelled, line_text};

use crate::word::Word;
use std::alloc::AllocError;

/// Adds a word.
fn put_word(out: &mut String, word: Word) -> Result<(), AllocError>
    ensures { OnOk result (string_bytes out.new ≡ string_bytes out.old ++ spelled word) }
{
    match word {
        Word::Number(n) => write!(out, "{n}"),
        Word::Problem => out.push_str("problem"),
        Word::Inputs => out.push_str("inputs"),
        Word::Jobs => out.push_str("jobs"),
        Word::After => out.push_str("after"),
        Word::Places => out.push_str("places"),
        Word::Builds => out.push_str("builds"),
        Word::Pairs => out.push_str("pairs"),
        Word::Proof => out.push_str("proof"),
        Word::Best => out.push_str("best"),
        Word::Nothing => out.push_str("none"),
        Word::Job => out.push_str("job"),
        Word::Empty => out.push_str("empty"),
        Word::Bounded => out.push_str("bounded"),
        Word::Same => out.push_str("same"),
        Word::Other => Ok(()),
    }
}

/// Adds a line of at least one word.
pub fn put_line(out: &mut String, words: &[Word]) -> Result<(), AllocError>
    requires { 0 < length words.now }
    ensures { OnOk result (string_bytes out.new ≡ string_bytes out.old ++ line_text words.now) }
{
    let mut rest = words;
    while let [word, others @ ..] = rest {
        put_word(out, *word)?;
        out.push_str(if others.is_empty() { "\n" } else { " " })?;
        rest = others;
    }
    Ok(())
}
