//! Where a text stops being JSON, as it is shown: by line and column, and by the line itself with a mark.
ghost use Rattle.std.specs.Prelude.{◌≡◌, ◌≤◌, ◌++◌, [], Some, None, length, map, string_bytes, IfOk, OnOk};
ghost use Rattle.std.specs.List.{flat_map};
ghost use Rattle.ccr_findings.specs.Breaks as spec;
ghost use Rattle.ccr_findings.specs.Breaks.{plain, blank};

use serde_json::Error;
use std::alloc::{AllocError, Global};

/// How many bytes of a line are shown before the mark.
const BEFORE: usize = 60;

/// How many are from the mark on.
const AFTER: usize = 20;

/// Whether it is the second byte of a letter that takes several, or one after it.
fn is_further(byte: u8) -> bool
    ensures { result ≡ spec.is_further byte }
{
    byte >= 128 && byte < 192
}

/// Adds a byte as it is shown.
#[tactic(auto, using(std::proofs::Common::append_assoc, crate::proofs::Lists::and_none))]
fn add_plain(line: &mut String, byte: u8) -> Result<(), AllocError>
    ensures { OnOk result (string_bytes line.new ≡ string_bytes line.old ++ plain byte) }
{
    if byte < 32 {
        return line.push(' ');
    }
    if byte < 127 {
        return line.push(byte as char);
    }
    if is_further(byte) {
        return Ok(());
    }
    line.push('?')
}

/// Adds bytes as they are shown.
#[tactic(auto, using(std::proofs::Common::append_assoc, crate::proofs::Lists::and_none))]
fn add_all(line: &mut String, bytes: &[u8]) -> Result<(), AllocError>
    ensures { OnOk result (string_bytes line.new ≡ string_bytes line.old ++ flat_map plain bytes.now) }
{
    for byte in bytes {
        add_plain(line, *byte)?;
    }
    Ok(())
}

/// Adds the rest of a line as it is shown.
#[tactic(auto, using(std::proofs::Common::append_assoc, crate::proofs::Lists::and_none))]
fn add_rest(line: &mut String, bytes: &[u8]) -> Result<(), AllocError>
    ensures { OnOk result (string_bytes line.new ≡ string_bytes line.old ++ spec.line_rest bytes.now) }
{
    for byte in bytes {
        if *byte == b'\n' {
            return Ok(());
        }
        add_plain(line, *byte)?;
    }
    Ok(())
}

/// Adds a space below each letter.
#[tactic(auto, using(std::proofs::Common::append_assoc, crate::proofs::Lists::and_none))]
fn add_blanks(line: &mut String, bytes: &[u8]) -> Result<(), AllocError>
    ensures { OnOk result (string_bytes line.new ≡ string_bytes line.old ++ flat_map blank bytes.now) }
{
    for byte in bytes {
        if !is_further(*byte) {
            line.push(' ')?;
        }
    }
    Ok(())
}

/// How many lines end in bytes.
fn line_ends(bytes: &[u8]) -> usize
    ensures count { result ≡ spec.line_ends bytes.now }
    ensures few { result ≤ length bytes.now }
{
    let mut ends = 0;
    for byte in bytes {
        if *byte == b'\n' {
            ends += 1;
        }
    }
    ends
}

/// How many letters they have.
fn letters_in(bytes: &[u8]) -> usize
    ensures count { result ≡ spec.letters_in bytes.now }
    ensures few { result ≤ length bytes.now }
{
    let mut letters = 0;
    for byte in bytes {
        if !is_further(*byte) {
            letters += 1;
        }
    }
    letters
}

/// Where the last line of bytes begins.
fn line_begin(bytes: &[u8]) -> usize
    ensures begin { result ≡ spec.line_begin 0 0 bytes.now }
    ensures within { result ≤ length bytes.now }
{
    let mut begin = 0;
    for (i, byte) in bytes.iter().enumerate() {
        if *byte == b'\n' {
            begin = i + 1;
        }
    }
    begin
}

/// The line and the column behind bytes.
fn position(alloc: Global, before: &[u8]) -> Result<String, AllocError>
    ensures { IfOk result (λ text. string_bytes text ≡ spec.position before.now) }
{
    let line = line_ends(before) + 1;
    let column = letters_in(&before[line_begin(before)..]) + 1;
    format!(in alloc; "not JSON at line {line}, column {column}")
}

/// The text around a position, and the line with the mark below it.
fn marked(alloc: Global, before: &[u8], after: &[u8]) -> Result<(String, String), AllocError>
    ensures { IfOk result (λ lines. (string_bytes lines.0 ≡ spec.shown_line before.now after.now)
        × (string_bytes lines.1 ≡ spec.mark_line before.now)) }
{
    let from = line_begin(before).max(before.len().saturating_sub(BEFORE));
    let shown = &before[from..];
    let rest = &after[..after.len().min(AFTER)];
    let mut line = String::new(alloc);
    add_all(&mut line, shown)?;
    add_rest(&mut line, rest)?;
    let mut mark = String::new(alloc);
    add_blanks(&mut mark, shown)?;
    mark.push_str("^")?;
    Ok((line, mark))
}

/// Whether a byte is white space.
fn is_space(byte: u8) -> bool
    ensures { result ≡ spec.is_space byte }
{
    byte == b' ' || byte == b'\t' || byte == b'\r' || byte == b'\n'
}

/// The first byte of a text that isn't white space.
fn first_of(text: &[u8]) -> Option<u8>
    ensures { result ≡ spec.first_of text.now }
{
    for byte in text {
        if !is_space(*byte) {
            return Some(*byte);
        }
    }
    None
}

/// What is said of a text that begins with this byte.
fn begin_words(first: u8) -> &'static str
    ensures { result.now ≡ spec.begin_words first }
{
    if first == b'{' {
        ""
    } else {
        ": a pipeline begins with {; examples/operating/pipeline-json FILE makes JSON of YAML"
    }
}

/// The line of a text that has nothing but white space.
fn empty_lines(alloc: Global) -> Result<Vec<String>, AllocError>
    ensures { IfOk result (λ v. map string_bytes v.items ≡ spec.lines_between None [] []) }
{
    let line = String::from_str(alloc, "not JSON at line 1, column 1: the file is empty")?;
    let mut lines = Vec::new(alloc);
    lines.push(line)?;
    Ok(lines)
}

/// The lines of a position in a text that begins with this byte.
fn lines_at(
    alloc: Global,
    first: u8,
    before: &[u8],
    after: &[u8],
) -> Result<Vec<String>, AllocError>
    ensures { IfOk result (λ v. map string_bytes v.items ≡ spec.lines_between (Some first) before.now after.now) }
{
    let mut head = position(alloc, before)?;
    head.push_str(begin_words(first))?;
    let (line, mark) = marked(alloc, before, after)?;
    let mut lines = Vec::new(alloc);
    lines.push(head)?;
    lines.push(line)?;
    lines.push(mark)?;
    Ok(lines)
}

/// The lines of a position in a text.
pub(crate) fn break_lines(alloc: Global, text: &[u8], at: usize) -> Result<Vec<String>, AllocError>
    requires { at ≤ length text.now }
    ensures { IfOk result (λ v. map string_bytes v.items ≡ spec.break_lines text.now at) }
{
    let (before, after) = text.split_at(at);
    match first_of(text) {
        Some(first) => lines_at(alloc, first, before, after),
        None => empty_lines(alloc),
    }
}

/// Where a text ends, but for white space.
fn end_of(text: &[u8]) -> usize
    ensures { result ≤ length text.now }
{
    let mut end = 0;
    for (i, byte) in text.iter().enumerate() {
        if !is_space(*byte) {
            end = i + 1;
        }
    }
    end
}

/// Where the line of a number begins, the first being 1.
fn begin_of(text: &[u8], line: usize) -> usize
    ensures { result ≤ length text.now }
{
    let mut begin = 0;
    let mut number = 1usize;
    for (i, byte) in text.iter().enumerate() {
        if number >= line {
            return begin;
        }
        if *byte == b'\n' {
            begin = i + 1;
            number = number.saturating_add(1);
        }
    }
    begin
}

/// Where a text stops being JSON, by the error that its reader gave.
pub(crate) fn offset_of(text: &[u8], error: &Error) -> usize
    ensures { result ≤ length text.now }
{
    if error.is_eof() {
        return end_of(text);
    }
    let begin = begin_of(text, error.line());
    begin
        .saturating_add(error.column().saturating_sub(1))
        .min(text.len())
}
