//! The formats of a problem's text.

ghost use Rattle.std.specs.Prelude.{◌≡◌};
ghost use Rattle.ccr_choice.specs.ProblemText.{format_of};

use crate::problem::Input;

/// The format of a problem for none of whose inputs a place is kept.
pub(crate) const PLAIN_FORMAT: u32 = 1;
/// The format of a problem for one of whose inputs a place is kept.
pub(crate) const AFTER_FORMAT: u32 = 2;

/// The format in which a problem of these inputs is written.
pub(crate) fn format_of(inputs: &[Input]) -> u32
    ensures { result ≡ format_of inputs.now }
{
    let mut rest = inputs;
    while let [input, others @ ..] = rest {
        if input.after().is_some() {
            return AFTER_FORMAT;
        }
        rest = others;
    }
    PLAIN_FORMAT
}
