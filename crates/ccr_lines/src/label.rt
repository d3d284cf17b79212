//! Names in the labels of a graph, and its lines.
ghost use Rattle.std.specs.Prelude.{◌≡◌, ◌++◌, ◌∷◌, [], flat_map, codes, decimal, IfOk, OnOk};
ghost use Rattle.ccr_lines.specs.Graphs.{is_plain, label_byte, label};

use crate::texts::push_pieces;
use itoa::Buffer;
use std::alloc::{AllocError, Global};

/// Whether a byte is written as it is: a letter, a digit, a dash, a dot, an underscore, or one of a character beyond
/// ASCII.
fn is_plain(byte: u8) -> bool
    ensures { result ≡ is_plain byte }
{
    (b'a' <= byte && byte <= b'z')
        || (b'A' <= byte && byte <= b'Z')
        || (b'0' <= byte && byte <= b'9')
        || (byte == b'-' || byte == b'.' || byte == b'_')
        || 128 <= byte
}

/// Adds a character by its number.
fn push_number(out: &mut Vec<u8>, byte: u8) -> Result<(), AllocError>
    ensures { OnOk result (out.new.items ≡ out.old.items ++ (codes "#" ++ (decimal byte ++ codes ";"))) }
{
    let mut buffer = Buffer::new();
    out.extend_from_slice("#".as_bytes())?;
    out.extend_from_slice(buffer.format(byte).as_bytes())?;
    out.extend_from_slice(";".as_bytes())
}

/// Adds a byte of a name.
fn push_byte(out: &mut Vec<u8>, byte: u8) -> Result<(), AllocError>
    ensures { OnOk result (out.new.items ≡ out.old.items ++ label_byte byte) }
{
    if is_plain(byte) {
        out.extend_from_slice(&[byte])
    } else {
        push_number(out, byte)
    }
}

/// A name in a label.
pub(crate) fn label_of(alloc: Global, name: &str) -> Result<Vec<u8>, AllocError>
    ensures { IfOk result (λ text. text.items ≡ label name.now) }
{
    let mut text = Vec::new(alloc);
    for byte in name.as_bytes() {
        push_byte(&mut text, *byte)?;
    }
    Ok(text)
}

/// Adds a line of these parts.
pub(crate) fn push_parts(out: &mut Vec<u8>, parts: &[&[u8]]) -> Result<(), AllocError>
    ensures { OnOk result (out.new.items ≡ out.old.items ++ (flat_map (λ part. part.now) parts.now ++ 10 ∷ [])) }
{
    push_pieces(out, parts)?;
    out.extend_from_slice("\n".as_bytes())
}
