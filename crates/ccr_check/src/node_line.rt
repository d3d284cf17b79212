//! The lines of nodes, read from bytes one at a time without memory.

ghost use Rattle.std.specs.Prelude.{◌≡◌, ◌++◌, ◌∷◌, IfSome, codes};
ghost use Rattle.std.specs.Fmt.{decimal};
ghost use Rattle.ccr_choice.specs.Text.{line_text};
ghost use Rattle.ccr_check.specs.Streamed.{words_on};

/// What a node's line says, in a tree in which no child is the same as another.
#[derive(Clone, Copy)]
pub(crate) enum NodeLine {
    /// A job, and how many children follow.
    Job(u32, u32),
    /// An input without a possible place.
    Empty(u32),
    /// Nothing better.
    Bounded,
}

/// The first byte, and what follows it.
fn first_byte(text: &[u8]) -> Option<(u8, &[u8])>
    ensures { IfSome result (λ x. text.now ≡ x.0 ∷ x.1.now) }
{
    match text {
        [byte, behind @ ..] => Some((*byte, behind)),
        [] => None,
    }
}

/// A number at the front, and what follows it: after a leading zero, whatever stands there.
#[tactic(auto, using(crate::proofs::Streams::number_starts, crate::proofs::Streams::number_goes_on))]
fn number_at(text: &[u8]) -> Option<(u32, &[u8])>
    ensures { IfSome result (λ x. text.now ≡ decimal x.0 ++ x.1.now) }
{
    let Some((first, rest)) = first_byte(text) else {
        return None;
    };
    if !first.is_ascii_digit() {
        return None;
    }
    let mut value = u32::from(first - b'0');
    let mut rest = rest;
    while let Some((digit, others)) = first_byte(rest) {
        if value == 0 || !digit.is_ascii_digit() {
            return Some((value, rest));
        }
        let next = u64::from(value) * 10 + u64::from(digit - b'0');
        if next >= 4_294_967_296 {
            return None;
        }
        value = next as u32;
        rest = others;
    }
    Some((value, rest))
}

/// A number that ends with this byte, and what follows the byte.
fn number_to(text: &[u8], end: u8) -> Option<(u32, &[u8])>
    ensures { IfSome result (λ x. text.now ≡ decimal x.0 ++ end ∷ x.1.now) }
{
    let Some((number, rest)) = number_at(text) else {
        return None;
    };
    match rest {
        [byte, behind @ ..] if *byte == end => Some((number, behind)),
        _ => None,
    }
}

fn job_line(text: &[u8]) -> Option<(NodeLine, &[u8])>
    ensures { IfSome result (λ x. codes "job " ++ text.now ≡ line_text (words_on x.0) ++ x.1.now) }
{
    let Some((job, rest)) = number_to(text, b' ') else {
        return None;
    };
    let Some((children, behind)) = number_to(rest, b'\n') else {
        return None;
    };
    Some((NodeLine::Job(job, children), behind))
}

fn empty_line(text: &[u8]) -> Option<(NodeLine, &[u8])>
    ensures { IfSome result (λ x. codes "empty " ++ text.now ≡ line_text (words_on x.0) ++ x.1.now) }
{
    let Some((input, behind)) = number_to(text, b'\n') else {
        return None;
    };
    Some((NodeLine::Empty(input), behind))
}

/// The node's line at the front, and what follows it. None for every other line, also for that of a node that is the
/// same as another.
pub(crate) fn next_line(text: &[u8]) -> Option<(NodeLine, &[u8])>
    ensures { IfSome result (λ x. text.now ≡ line_text (words_on x.0) ++ x.1.now) }
{
    match text {
        [b'e', b'm', b'p', b't', b'y', b' ', rest @ ..] => empty_line(rest),
        [b'j', b'o', b'b', b' ', rest @ ..] => job_line(rest),
        [b'b', b'o', b'u', b'n', b'd', b'e', b'd', b'\n', rest @ ..] => {
            Some((NodeLine::Bounded, rest))
        }
        _ => None,
    }
}
