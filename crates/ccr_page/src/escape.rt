//! Texts in a page, and in its links, so that they don't become markup.

ghost use Rattle.std.specs.Prelude.{◌≡◌, ◌+◌, ◌*◌, ◌/◌, ◌%◌, ◌++◌, ◌<◌, ◌≤◌, length, take, flat_map, OnOk, option_copied};
ghost use Rattle.ccr_page.specs.Texts.{entity, escape, escaped, is_plain, hex_digit, percent, link_byte, way_byte, link, trimmed, leads_away, way_start, way};

use std::alloc::AllocError;

// ---- text

/// What stands for a byte that can't stand for itself.
fn entity(byte: u8) -> Option<&'static str>
    ensures { option_copied result ≡ entity byte }
{
    if byte == b'&' {
        Some("&amp;")
    } else if byte == b'<' {
        Some("&lt;")
    } else if byte == b'>' {
        Some("&gt;")
    } else if byte == b'"' {
        Some("&quot;")
    } else if byte == b'\'' {
        Some("&#39;")
    } else if byte < 32 || byte == 127 {
        Some("\u{fffd}")
    } else {
        None
    }
}

/// Adds what stands for a byte of a text.
fn push_escape(out: &mut Vec<u8>, byte: u8) -> Result<(), AllocError>
    ensures { OnOk result (out.new.items ≡ out.old.items ++ escape byte) }
{
    match entity(byte) {
        Some(entity) => out.extend_from_slice(entity.as_bytes())?,
        None => out.push(byte)?,
    }
    Ok(())
}

/// Adds a text.
pub(crate) fn push_escaped(out: &mut Vec<u8>, text: &[u8]) -> Result<(), AllocError>
    ensures { OnOk result (out.new.items ≡ out.old.items ++ escaped text.now) }
{
    for byte in text {
        push_escape(out, *byte)?;
    }
    Ok(())
}

// ---- links

/// Whether a byte stands for itself in a link.
fn is_plain(byte: u8) -> bool
    ensures { result ≡ is_plain byte }
{
    (65 <= byte && byte <= 90)
        || (97 <= byte && byte <= 122)
        || (48 <= byte && byte <= 57)
        || byte == 45
        || byte == 46
        || byte == 95
        || byte == 126
}

/// A hexadecimal digit.
fn hex_digit(number: u8) -> u8
    requires { number < 16 }
    ensures { result ≡ hex_digit number }
{
    if number < 10 {
        48 + number
    } else {
        55 + number
    }
}

/// Adds what stands for a byte in a piece of a link.
fn push_link_byte(out: &mut Vec<u8>, byte: u8) -> Result<(), AllocError>
    ensures { OnOk result (out.new.items ≡ out.old.items ++ link_byte byte) }
{
    if is_plain(byte) {
        out.push(byte)?;
    } else {
        let percent = [37, hex_digit(byte / 16), hex_digit(byte % 16)];
        out.extend_from_slice(&percent)?;
    }
    Ok(())
}

/// Adds a text as a piece of a link.
pub(crate) fn push_link(out: &mut Vec<u8>, text: &[u8]) -> Result<(), AllocError>
    ensures { OnOk result (out.new.items ≡ out.old.items ++ link text.now) }
{
    for byte in text {
        push_link_byte(out, *byte)?;
    }
    Ok(())
}

/// Adds what stands for a byte in the directory of a link.
fn push_way_byte(out: &mut Vec<u8>, byte: u8) -> Result<(), AllocError>
    ensures { OnOk result (out.new.items ≡ out.old.items ++ way_byte byte) }
{
    if byte == b'/' {
        out.push(byte)?;
    } else {
        push_link_byte(out, byte)?;
    }
    Ok(())
}

/// How long a directory is without the slashes at its end.
fn trimmed_length(text: &[u8]) -> usize
    ensures within { result ≤ length text.now }
    ensures value { take result text.now ≡ trimmed text.now }
{
    let mut end = 0;
    for (at, byte) in text.iter().enumerate() {
        if *byte != b'/' {
            end = at + 1;
        }
    }
    end
}

/// Whether a link that begins so, and goes on with a slash, may lead to another server: its name stands behind two slashes.
fn leads_away(text: &[u8]) -> bool
    ensures { result ≡ leads_away text.now }
{
    text.is_empty() || text.starts_with(b"//")
}

/// Adds what stands before a directory in a link, so that the link stays at its server. A browser leaves `/.` out.
fn push_way_start(out: &mut Vec<u8>, text: &[u8]) -> Result<(), AllocError>
    ensures { OnOk result (out.new.items ≡ out.old.items ++ way_start text.now) }
{
    if leads_away(text) {
        out.extend_from_slice(b"/.")?;
    }
    Ok(())
}

/// Adds the bytes of a directory in a link.
fn push_way_bytes(out: &mut Vec<u8>, text: &[u8]) -> Result<(), AllocError>
    ensures { OnOk result (out.new.items ≡ out.old.items ++ flat_map way_byte text.now) }
{
    for byte in text {
        push_way_byte(out, *byte)?;
    }
    Ok(())
}

/// Adds a text as the directory of a link, which goes on with a slash.
pub(crate) fn push_way(out: &mut Vec<u8>, text: &[u8]) -> Result<(), AllocError>
    ensures { OnOk result (out.new.items ≡ out.old.items ++ way text.now) }
{
    let text = &text[..trimmed_length(text)];
    push_way_start(out, text)?;
    push_way_bytes(out, text)?;
    Ok(())
}
