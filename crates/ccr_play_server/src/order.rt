//! What the program's words ask for.

use crate::kind::LineKind;
use ccr_rows::{Kind, Telling};

/// What the program does.
#[derive(Clone, Copy)]
pub(crate) enum Call<'a> {
    Check(&'a [String]),
    Lines(LineKind, Telling),
}

/// The call that words ask for.
pub(crate) fn call_of(words: &[String]) -> Option<Call<'_>> {
    match words {
        [first, names @ ..] if first.as_str() == "check" => Some(Call::Check(names)),
        [kind] => Some(Call::Lines(LineKind::of_name(kind.as_str())?, Telling::Answers)),
        [kind, second] if second.as_str() == "--timed" => Some(Call::Lines(
            LineKind::of_name(kind.as_str())?,
            Telling::Times,
        )),
        _ => None,
    }
}
