//! Words: numbers in one spelling, and the keywords of all formats.

ghost use Rattle.std.specs.Prelude.{◌≡◌};
ghost use Rattle.ccr_choice.specs.Text.{value_after, number_of, keyword_of, number_or_keyword, word_of};

/// A word of a line.
#[derive(Clone, Copy, Debug, PartialEq, Eq)]
pub enum Word {
    /// Decimal digits without a leading zero, from 0 to 4294967295.
    Number(u32),
    /// `problem`
    Problem,
    /// `inputs`
    Inputs,
    /// `jobs`
    Jobs,
    /// `after`
    After,
    /// `places`
    Places,
    /// `builds`
    Builds,
    /// `pairs`
    Pairs,
    /// `proof`
    Proof,
    /// `best`
    Best,
    /// `none`
    Nothing,
    /// `job`
    Job,
    /// `empty`
    Empty,
    /// `bounded`
    Bounded,
    /// `same`
    Same,
    /// Any other bytes, which no format has.
    Other,
}

fn value_of(digits: &[u8]) -> Option<u32>
    ensures { result ≡ value_after 0 digits.now }
{
    let mut value: u32 = 0;
    let mut rest = digits;
    while let [c, others @ ..] = rest {
        if !c.is_ascii_digit() {
            return None;
        }
        let next = u64::from(value) * 10 + u64::from(*c - b'0');
        if next >= 4_294_967_296 {
            return None;
        }
        value = next as u32;
        rest = others;
    }
    Some(value)
}

#[tactic(auto, unfolding(crate::specs::Text::number_of))]
fn number_of(bytes: &[u8]) -> Option<u32>
    ensures { result ≡ number_of bytes.now }
{
    match bytes {
        [] => None,
        [b'0', _, ..] => None,
        _ => value_of(bytes),
    }
}

#[tactic(auto, unfolding(crate::specs::Text::keyword_of))]
fn keyword_of(bytes: &[u8]) -> Word
    ensures { result ≡ keyword_of bytes.now }
{
    if bytes == b"problem".as_slice() {
        Word::Problem
    } else if bytes == b"inputs".as_slice() {
        Word::Inputs
    } else if bytes == b"jobs".as_slice() {
        Word::Jobs
    } else if bytes == b"after".as_slice() {
        Word::After
    } else if bytes == b"places".as_slice() {
        Word::Places
    } else if bytes == b"builds".as_slice() {
        Word::Builds
    } else if bytes == b"pairs".as_slice() {
        Word::Pairs
    } else if bytes == b"proof".as_slice() {
        Word::Proof
    } else if bytes == b"best".as_slice() {
        Word::Best
    } else if bytes == b"none".as_slice() {
        Word::Nothing
    } else if bytes == b"job".as_slice() {
        Word::Job
    } else if bytes == b"empty".as_slice() {
        Word::Empty
    } else if bytes == b"bounded".as_slice() {
        Word::Bounded
    } else if bytes == b"same".as_slice() {
        Word::Same
    } else {
        Word::Other
    }
}

/// The word that bytes spell.
#[tactic(auto, unfolding(crate::specs::Text::word_of))]
pub(crate) fn word_of(bytes: &[u8]) -> Word
    ensures { result ≡ word_of bytes.now }
{
    match number_of(bytes) {
        Some(n) => Word::Number(n),
        None => keyword_of(bytes),
    }
}
