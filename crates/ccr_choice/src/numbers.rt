//! Lists of numbers on a line.

ghost use Rattle.std.specs.Prelude.{◌≡◌, ◌++◌, IfOk, OnOk};
ghost use Rattle.ccr_choice.specs.Reading.{number_words, front_numbers, after_numbers};

use crate::word::Word;
use std::alloc::{AllocError, Global};

/// The numbers at the front of a line, and the words after them.
pub fn front_numbers(alloc: Global, words: &[Word]) -> Result<(Vec<u32>, &[Word]), AllocError>
    ensures front { IfOk result (λ x. x.0.items ≡ front_numbers words.now) }
    ensures after { IfOk result (λ x. x.1.now ≡ after_numbers words.now) }
{
    let mut numbers = Vec::new(alloc);
    let mut rest = words;
    while let [Word::Number(n), others @ ..] = rest {
        numbers.push(*n)?;
        rest = others;
    }
    Ok((numbers, rest))
}

/// Adds the words of a list of numbers.
pub fn push_numbers(words: &mut Vec<Word>, numbers: &[u32]) -> Result<(), AllocError>
    ensures { OnOk result (words.new.items ≡ words.old.items ++ number_words numbers.now) }
{
    for n in numbers {
        words.push(Word::Number(*n))?;
    }
    Ok(())
}
