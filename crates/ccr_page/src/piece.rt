//! Pieces of a page, and how they are written.

ghost use Rattle.std.specs.Prelude.{◌≡◌, ◌++◌, map, OnOk, decimal};
ghost use Rattle.ccr_page.specs.Texts.{escaped, cut, is_ascii};
ghost use Rattle.ccr_page.specs.Pieces.{isolated, piece_text, piece_data, Adds};

use crate::cut::push_cut;
use crate::data::Urgency;
use crate::escape::{push_escaped, push_link, push_way};
use crate::status::{Status, class_of};
use itoa::Buffer;
use std::alloc::AllocError;

/// A piece of a page.
#[derive(Clone, Copy)]
pub(crate) enum Piece<'a> {
    /// Markup of the template.
    Markup(&'a str),
    /// A text.
    Shown(&'a String),
    /// A text in so many units.
    Cut(&'a String, u32),
    /// The same of a name, in an element of its own unless it's ASCII.
    Isolated(&'a String, u32),
    Number(u64),
    /// A piece of a link.
    Link(&'a String),
    /// The directory of a link.
    Way(&'a String),
    /// The class of a status.
    Class(Status),
    /// A status in a word.
    Standing(Status),
    /// The colour of a status.
    Colour(Status),
    /// The class of an urgency.
    Kind(Urgency),
}

/// Adds a number.
fn push_number(out: &mut Vec<u8>, number: u64) -> Result<(), AllocError>
    ensures { OnOk result (out.new.items ≡ out.old.items ++ decimal number) }
{
    let mut buffer = Buffer::new();
    out.extend_from_slice(buffer.format(number).as_bytes())
}

/// Whether a text is of ASCII alone.
fn is_ascii(text: &[u8]) -> bool
    ensures { result ≡ is_ascii text.now }
{
    text.iter().all(|byte| *byte < 128)
}

/// Adds a name in so many units, in an element of its own unless it's ASCII.
fn push_isolated(out: &mut Vec<u8>, name: &[u8], most: u32) -> Result<(), AllocError>
    ensures { OnOk result (out.new.items ≡ out.old.items ++ isolated name.now (escaped (cut most name.now))) }
{
    if is_ascii(name) {
        push_cut(out, name, most)?;
    } else {
        out.extend_from_slice("<bdi>".as_bytes())?;
        push_cut(out, name, most)?;
        out.extend_from_slice("</bdi>".as_bytes())?;
    }
    Ok(())
}

/// Adds a piece.
fn push_piece(out: &mut Vec<u8>, piece: Piece<'_>) -> Result<(), AllocError>
    ensures { OnOk result (out.new.items ≡ out.old.items ++ piece_text (piece_data piece.entry)) }
{
    match piece {
        Piece::Markup(text) => out.extend_from_slice(text.as_bytes()),
        Piece::Shown(text) => push_escaped(out, text.as_bytes()),
        Piece::Cut(text, most) => push_cut(out, text.as_bytes(), most),
        Piece::Isolated(name, most) => push_isolated(out, name.as_bytes(), most),
        Piece::Number(number) => push_number(out, number),
        Piece::Link(text) => push_link(out, text.as_bytes()),
        Piece::Way(text) => push_way(out, text.as_bytes()),
        Piece::Class(status) => out.extend_from_slice(status.class().as_bytes()),
        Piece::Standing(status) => out.extend_from_slice(status.word().as_bytes()),
        Piece::Colour(status) => out.extend_from_slice(status.colour().as_bytes()),
        Piece::Kind(urgency) => out.extend_from_slice(class_of(urgency).as_bytes()),
    }
}

/// Adds pieces, one after another.
pub(crate) fn push(out: &mut Vec<u8>, pieces: &[Piece<'_>]) -> Result<(), AllocError>
    ensures { OnOk result (Adds out.old.items out.new.items (map piece_data pieces.now)) }
{
    for piece in pieces {
        push_piece(out, *piece)?;
    }
    Ok(())
}
