//! Texts of parts.
ghost use Rattle.std.specs.Prelude.{◌≡◌, ◌++◌, ◌∷◌, [], flat_map, string_bytes, OnOk};

use std::alloc::AllocError;

/// Adds a line of these parts. The only error is out of memory.
pub(crate) fn push_line(text: &mut String, parts: &[&str]) -> Result<(), AllocError>
    ensures { OnOk result (string_bytes text.new
        ≡ string_bytes text.old ++ (flat_map (λ part. part.now) parts.now ++ 10 ∷ [])) }
{
    for part in parts {
        text.push_str(part)?;
    }
    text.push_str("\n")
}

/// Adds these pieces, one behind the other.
pub(crate) fn push_pieces(out: &mut Vec<u8>, pieces: &[&[u8]]) -> Result<(), AllocError>
    ensures { OnOk result (out.new.items ≡ out.old.items ++ flat_map (λ piece. piece.now) pieces.now) }
{
    for piece in pieces {
        out.extend_from_slice(piece)?;
    }
    Ok(())
}
