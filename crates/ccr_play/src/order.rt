//! What the program's words ask for.
ghost use Rattle.std.specs.Prelude.{◌≤◌};

use crate::kind::LineKind;
use ccr_rows::{Kind, Telling};

/// A node budget, from 1 to 1,000,000.
#[derive(Clone, Copy, PartialEq, Eq)]
pub(crate) struct Budget {
    pub(crate) nodes: u32,
    ghost least: { 1 ≤ nodes },
    ghost most: { nodes ≤ 1000000 },
}

/// What is made of a whole text.
#[derive(Clone, Copy)]
pub(crate) enum Whole {
    Pipeline,
    Resolve(Budget),
    Choose(Budget),
}

/// What the program does.
#[derive(Clone, Copy)]
pub(crate) enum Call<'a> {
    Check(&'a [String]),
    Lines(LineKind, Telling),
    Text(Whole),
    /// Lines of stores, whose histories are kept in files of this name too.
    Kept(&'a str),
}

fn budget_of(word: &str) -> Option<Budget> {
    let nodes = word.parse::<u32>().ok()?;
    if 1 <= nodes && nodes <= 1_000_000 {
        Some(Budget { nodes })
    } else {
        None
    }
}

/// The call of two words.
fn call_of_two<'a>(first: &'a str, second: &'a str) -> Option<Call<'a>> {
    match (first, second) {
        ("resolve", budget) => Some(Call::Text(Whole::Resolve(budget_of(budget)?))),
        ("choose", budget) => Some(Call::Text(Whole::Choose(budget_of(budget)?))),
        ("stores", path) if path != "--timed" => Some(Call::Kept(path)),
        (kind, "--timed") => Some(Call::Lines(LineKind::of_name(kind)?, Telling::Times)),
        _ => None,
    }
}

/// The call that words ask for.
pub(crate) fn call_of(words: &[String]) -> Option<Call<'_>> {
    match words {
        [first, names @ ..] if first.as_str() == "check" => Some(Call::Check(names)),
        [first] => match first.as_str() {
            "pipeline" => Some(Call::Text(Whole::Pipeline)),
            kind => Some(Call::Lines(LineKind::of_name(kind)?, Telling::Answers)),
        },
        [first, second] => call_of_two(first.as_str(), second.as_str()),
        _ => None,
    }
}
