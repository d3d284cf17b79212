//! Texts in so many units: a letter of East Asia is twice as wide as one of Europe.

ghost use Rattle.std.specs.Prelude.{◌≡◌, ◌*◌, ◌++◌, ◌∷◌, ◌≤◌, length, take, drop, OnOk};
ghost use Rattle.ccr_page.specs.Texts.{escaped, is_later, unit, units, front, back, front_units, cut};

use crate::escape::push_escaped;
use std::alloc::AllocError;

/// Whether a byte goes on with a letter.
fn is_later(byte: u8) -> bool
    ensures { result ≡ is_later byte }
{
    128 <= byte && byte < 192
}

/// How many units wide the letter is that begins with this byte.
fn unit(byte: u8) -> usize
    ensures value { result ≡ unit byte }
    ensures few { result ≤ 2 }
{
    if is_later(byte) {
        0
    } else if byte < 204 {
        1
    } else {
        2
    }
}

/// How many units wide a text is.
pub(crate) fn units(text: &[u8]) -> usize
    ensures value { result ≡ units text.now }
    ensures few { result ≤ 2 * length text.now }
{
    let mut units = 0;
    for byte in text {
        units += unit(*byte);
    }
    units
}

/// How many bytes the beginning of a text has, in so many units.
fn front_length(text: &[u8], most: usize) -> usize
    ensures within { result ≤ length text.now }
    ensures value { take result text.now ≡ front most text.now }
{
    let mut left = most;
    for (at, byte) in text.iter().enumerate() {
        let unit = unit(*byte);
        if unit > left {
            return at;
        }
        left -= unit;
    }
    text.len()
}

/// Where the end of a text begins, in so many units.
fn back_start(text: &[u8], most: usize) -> usize
    ensures within { result ≤ length text.now }
    ensures value { drop result text.now ≡ back most text.now }
{
    let mut left = units(text);
    for (at, byte) in text.iter().enumerate() {
        if left <= most && !is_later(*byte) {
            return at;
        }
        left -= unit(*byte);
    }
    text.len()
}

/// How many units of a cut text stand before the ellipsis.
fn front_units(most: u32) -> usize
    ensures { result ≡ front_units most }
{
    most.saturating_sub(1) as usize * 3 / 5
}

/// Adds the beginning and the end of a text, with an ellipsis between them.
fn push_ends(out: &mut Vec<u8>, text: &[u8], front: usize, back: usize) -> Result<(), AllocError>
    requires front { front ≤ length text.now }
    requires back { back ≤ length text.now }
    ensures { OnOk result (out.new.items
        ≡ out.old.items ++ escaped (take front text.now ++ (226 ∷ 128 ∷ 166 ∷ drop back text.now))) }
{
    push_escaped(out, &text[..front])?;
    out.extend_from_slice("…".as_bytes())?;
    push_escaped(out, &text[back..])?;
    Ok(())
}

/// Adds a text in so many units.
pub(crate) fn push_cut(out: &mut Vec<u8>, text: &[u8], most: u32) -> Result<(), AllocError>
    ensures { OnOk result (out.new.items ≡ out.old.items ++ escaped (cut most text.now)) }
{
    if units(text) <= most as usize {
        push_escaped(out, text)?;
    } else {
        let kept = front_units(most);
        let front = front_length(text, kept);
        let rest = (most as usize).saturating_sub(1).saturating_sub(kept);
        let back = back_start(text, rest);
        push_ends(out, text, front, back)?;
    }
    Ok(())
}
