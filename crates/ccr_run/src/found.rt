//! What is found in a pipeline's file: told beside `set-pipeline`, and by `validate-pipeline`, which opens no database.
ghost use Rattle.std.specs.Prelude.{◌≡◌, ◌++◌, [], None, Some, Ok, Err, map, option_map, option_copied, string_bytes, IfOk, IfErr, OnOk, OnErr};
ghost use Rattle.ccr_findings.specs.Findings.{findings_data};
ghost use Rattle.ccr_run.specs.Explained.{told_data, nothing_told, has_set, has_shown, AreGates, TellsLines, gate_lines, refusal_lines};
ghost use Rattle.ccr_run.specs.Hints.{hint_data};
ghost use Rattle.ccr_run.specs.Obeyed.{validation_told};
ghost use Rattle.ccr_run.specs.Found.{Finds, IsRefusedText, PrintsRefused, Validates, ValidatesText, findings_text, line_text, lines_text, validation_data, wrong_text};
ghost use Rattle.ccr_run.specs.Found as spec;
ghost use Rattle.ccr_run.specs.Writers.{GetsLines};

use crate::failure::Failure;
use crate::hint::Hint;
use crate::order::Order;
use crate::refusal::refusal_of;
use crate::telling::Telling;
use crate::typed::{is_option, word_at};
use ccr_core::Command;
use ccr_findings::{Finding, Findings, fault_lines, findings_in_text, findings_of, is_faultless};
use ccr_lines::Lines;
use ccr_pipeline::{ReadFault, read, value_of};
use ccr_serve::ServeFault;
use ccr_task::{Shelf, ShelfFault};
use std::alloc::{AllocError, Global};
use std::io::Write;

/// The word of the command that opens no database.
pub const VALIDATE: &str = "validate-pipeline";

/// The option that has a validation be strict.
const STRICT: &str = "--strict";

/// A pipeline's file that is to be validated.
#[derive(Clone, Copy, PartialEq, Eq)]
pub struct Validation<'a> {
    /// The file's path.
    pub path: &'a str,
    /// Whether anything but a gate is a reason to refuse the pipeline.
    pub is_strict: bool,
}

/// What is found in a text, or the fault for which it is refused: the first one that is present in it.
fn findings_of_text(alloc: Global, text: &[u8]) -> Result<Findings, ReadFault>
    ensures ok { IfOk result (λ findings. Finds text.now (Ok findings.items)) }
    ensures err { IfErr result (λ fault. Finds text.now (Err fault)) }
{
    let pipeline = read(alloc, text)?;
    let value = value_of(alloc, text, "pipeline")?;
    Ok(findings_of(alloc, &pipeline, &value)?)
}

/// Whether a command has set a pipeline.
fn has_set(command: &Command, end: &Result<u8, Failure>) -> bool
    ensures { result ≡ has_set command.now end.now }
{
    match command {
        Command::SetPipeline(_) => match end {
            Ok(status) => *status == 0,
            Err(_) => false,
        },
        _ => false,
    }
}

/// Whether a command has shown something.
fn has_shown(command: &Command, end: &Result<u8, Failure>) -> bool
    ensures { result ≡ has_shown command.now end.now }
{
    match end {
        Ok(0) => matches!(command, Command::Show(_)),
        _ => false,
    }
}

/// Says on standard error what is found in this text of a pipeline, where what is ordered has set one; or that no
/// pipeline is set, where there is no text, and something was shown.
pub fn tell_gates<'e, E: Write>(
    alloc: Global,
    telling: &mut Telling<'e, E>,
    order: &Order<'e>,
    end: &Result<u8, Failure>,
    text: Option<&[u8]>,
)
    requires { (told_data telling.old).gates ≡ None }
    ensures gates { AreGates (has_set order.now.command end.now) (has_shown order.now.command end.now)
        order.now.options.database.now (option_copied text.entry) (told_data telling.new).gates }
    ensures rest { told_data telling.new ≡ record (told_data telling.old) { gates = (told_data telling.new).gates } }
    ensures wrote { GetsLines (gate_lines (told_data telling.new).gates) telling.old.errors telling.new.errors }
{
    let Some(text) = text else {
        if has_shown(&order.command, end) {
            telling.unset(order.options.database);
        }
        return;
    };
    if !has_set(&order.command, end) {
        return;
    }
    if let Ok(findings) = findings_of_text(alloc, text) {
        telling.gates(&findings);
    }
}

// ---- validations

/// Whether the words are those of `validate-pipeline`.
pub fn is_validation(words: &[String]) -> bool
    ensures { result ≡ spec.is_validation (map string_bytes words.now) }
{
    match word_at(words, 1) {
        Some(word) => word == VALIDATE,
        None => false,
    }
}

/// What two words behind the command's order, or one.
fn validation_with<'a>(first: &'a str, second: Option<&'a str>) -> Option<Validation<'a>>
    ensures { option_map validation_data result ≡ spec.validation_with first.now (option_map (λ word. word.now) second.entry) }
{
    match second {
        None if is_option(first) => None,
        None => Some(Validation {
            path: first,
            is_strict: false,
        }),
        Some(second) if second == STRICT => Some(Validation {
            path: first,
            is_strict: true,
        }),
        Some(second) if first == STRICT => Some(Validation {
            path: second,
            is_strict: true,
        }),
        Some(_) => None,
    }
}

/// The file that `validate-pipeline` names, and whether it is to be strict. None where the words behind the command are others.
pub fn validation_of(words: &[String]) -> Option<Validation<'_>>
    ensures { option_map validation_data result ≡ spec.validation_in (map string_bytes words.now) }
{
    let Some(first) = word_at(words, 2) else {
        return None;
    };
    if word_at(words, 4).is_some() {
        return None;
    }
    validation_with(first, word_at(words, 3))
}

/// Adds a line, with its end.
fn add_line(text: &mut String, line: &str) -> Result<(), AllocError>
    ensures { OnOk result (string_bytes text.new ≡ string_bytes text.old ++ line_text line.now) }
{
    text.push_str(line)?;
    text.push_str("\n")?;
    Ok(())
}

/// The lines of what was found.
fn text_of(alloc: Global, findings: &[Finding]) -> Result<String, AllocError>
    ensures { IfOk result (λ text. string_bytes text ≡ findings_text findings.now) }
{
    let mut text = String::new(alloc);
    for finding in findings {
        add_line(&mut text, finding.line.as_str())?;
    }
    Ok(text)
}

/// Writes these bytes, and hands them out.
pub fn print<O: Lines>(out: &mut O, bytes: &[u8]) -> Result<(), AllocError>
    ensures shown { OnOk result (O.written out.new ≡ O.written out.old ++ bytes.now) }
    ensures refused { OnErr result (O.written out.new ≡ O.written out.old) }
    ensures whole { O.waiting out.old ≡ [] → O.waiting out.new ≡ [] }
    ensures quiet { O.notes out.new ≡ O.notes out.old }
{
    out.make_room(bytes.len())?;
    out.add(bytes);
    out.hand_out();
    Ok(())
}

/// Prints the lines of what was found. The only error is out of memory.
fn print_findings<O: Lines>(
    alloc: Global,
    out: &mut O,
    findings: &[Finding],
) -> Result<(), AllocError>
    ensures shown { OnOk result (O.written out.new ≡ O.written out.old ++ findings_text findings.now) }
    ensures refused { OnErr result (O.written out.new ≡ O.written out.old) }
    ensures whole { O.waiting out.old ≡ [] → O.waiting out.new ≡ [] }
    ensures quiet { O.notes out.new ≡ O.notes out.old }
{
    let text = text_of(alloc, findings)?;
    print(out, text.as_str().as_bytes())
}

/// Adds these lines, each with its line end.
#[tactic(auto, using(std::proofs::Common::append_assoc, crate::proofs::Refusing::and_none))]
fn add_lines(text: &mut String, lines: &[String]) -> Result<(), AllocError>
    ensures { OnOk result (string_bytes text.new ≡ string_bytes text.old ++ lines_text (map string_bytes lines.now)) }
{
    for line in lines {
        add_line(text, line.as_str())?;
    }
    Ok(())
}

/// Adds the lines of what is wrong of these findings.
#[tactic(auto, using(std::proofs::Common::append_assoc, crate::proofs::Refusing::and_none))]
fn add_wrong(text: &mut String, findings: &[Finding]) -> Result<(), AllocError>
    ensures { OnOk result (string_bytes text.new ≡ string_bytes text.old ++ wrong_text (findings_data findings.now)) }
{
    for finding in findings {
        if finding.kind.is_wrong() {
            add_line(text, finding.line.as_str())?;
        }
    }
    Ok(())
}

/// The lines of a text that is refused: those of all its faults, and of what is wrong with its keys and texts.
fn refused_text(alloc: Global, text: &[u8]) -> Result<String, AllocError>
    ensures { IfOk result (λ shown. IsRefusedText text.now (string_bytes shown)) }
{
    let faults = fault_lines(alloc, text)?;
    let findings = findings_in_text(alloc, text)?;
    let mut shown = String::new(alloc);
    add_lines(&mut shown, &faults)?;
    add_wrong(&mut shown, &findings)?;
    Ok(shown)
}

/// Prints the lines of a text that is refused. The only error is out of memory.
fn print_refused<O: Lines>(alloc: Global, out: &mut O, text: &[u8]) -> Result<(), AllocError>
    ensures shown { OnOk result (PrintsRefused text.now (O.written out.old) (O.written out.new)) }
    ensures refused { OnErr result (O.written out.new ≡ O.written out.old) }
    ensures whole { O.waiting out.old ≡ [] → O.waiting out.new ≡ [] }
    ensures quiet { O.notes out.new ≡ O.notes out.old }
{
    let lines = refused_text(alloc, text)?;
    print(out, lines.as_str().as_bytes())
}

/// Prints what is found in a text, and says whether nothing of it is a reason to refuse the pipeline.
fn validate_text<O: Lines>(
    alloc: Global,
    text: &[u8],
    is_strict: bool,
    out: &mut O,
) -> Result<bool, ServeFault>
    ensures validates { ValidatesText is_strict text.now result (O.written out.old) (O.written out.new) }
    ensures whole { O.waiting out.old ≡ [] → O.waiting out.new ≡ [] }
    ensures quiet { O.notes out.new ≡ O.notes out.old }
{
    match findings_of_text(alloc, text) {
        Ok(findings) => match print_findings(alloc, out, &findings) {
            Ok(()) => Ok(is_faultless(&findings, is_strict)),
            Err(_) => Err(ServeFault::NoMemory),
        },
        Err(ReadFault::NoMemory) => Err(ServeFault::NoMemory),
        Err(fault) => match print_refused(alloc, out, text) {
            Ok(()) => Err(ServeFault::Read(fault)),
            Err(_) => Err(ServeFault::NoMemory),
        },
    }
}

/// Prints what is found in a pipeline's file. Whether nothing of it is a reason to refuse the pipeline: nothing in it
/// doesn't do what it seems to say, and where the validation is strict, nothing but gates is found. All faults of a
/// text that is refused are printed.
///
/// `Read` where the text is refused, `File` where the file can't be read, and `NoMemory`.
pub fn validate<F: Shelf, O: Lines>(
    alloc: Global,
    shelf: &mut F,
    validation: &Validation<'_>,
    out: &mut O,
) -> Result<bool, ServeFault>
    ensures validates { Validates (validation_data validation.now) result (F.calls shelf.old) (F.calls shelf.new)
        (O.written out.old) (O.written out.new) }
    ensures whole { O.waiting out.old ≡ [] → O.waiting out.new ≡ [] }
    ensures quiet { O.notes out.new ≡ O.notes out.old }
{
    match shelf.read_file(validation.path) {
        Ok(text) => validate_text(alloc, &text, validation.is_strict, out),
        Err(ShelfFault::NoMemory) => Err(ServeFault::NoMemory),
        // A file that is too long is no pipeline either; what has to be done is to look at it.
        Err(ShelfFault::TooLong | ShelfFault::Failed) => Err(ServeFault::File),
    }
}

/// What to do about a validation of the file at a path, where that helps: its lines say the rest.
fn hint_in<'a>(path: &'a str, end: &Result<bool, ServeFault>) -> Option<Hint<'a>>
    ensures { option_map hint_data result ≡ spec.hint_in path.now end.now }
{
    match end {
        Err(ServeFault::File) => Some(Hint {
            path: Some(path),
            words: "is it there, is it a file of at most 1 MiB, and may you read it?",
        }),
        _ => None,
    }
}

/// Tells why a pipeline's file was refused, and gives the status: 0, 1 where something is a reason to refuse the pipeline,
/// and 4 where not all lines went out; or that of the refusal.
fn tell_end<E: Write>(
    telling: &mut Telling<'_, E>,
    end: Result<bool, ServeFault>,
    is_printed: bool,
) -> u8
    requires { (told_data telling.old).refusal ≡ None }
    ensures status { result ≡ spec.validated_status end is_printed }
    ensures told { told_data telling.new ≡ record (told_data telling.old) { refusal = spec.refusal_in end } }
    ensures wrote { GetsLines (refusal_lines (spec.refusal_in end)) telling.old.errors telling.new.errors }
{
    match end {
        Ok(is_good) if is_printed => if is_good { 0 } else { 1 },
        Ok(_) => 4,
        Err(fault) => {
            let failure = Failure::Refused(fault);
            let refusal = refusal_of(&failure);
            telling.refusal(refusal);
            refusal.status
        }
    }
}

/// Tells why the pipeline's file at a path was refused, and what to do where it can't be read. It gives the status: 0, 1 where
/// something is a reason to refuse the pipeline, and 4 where not all lines went out; or that of the refusal.
pub fn tell_validation<'e, E: Write>(
    telling: &mut Telling<'e, E>,
    path: &'e str,
    end: Result<bool, ServeFault>,
    is_printed: bool,
) -> u8
    requires { told_data telling.old ≡ nothing_told }
    ensures status { result ≡ spec.validated_status end is_printed }
    ensures told { told_data telling.new ≡ validation_told path.now end }
    ensures wrote { TellsLines (validation_told path.now end) telling.old.errors telling.new.errors }
{
    let hint = hint_in(path, &end);
    let status = tell_end(telling, end, is_printed);
    if let Some(hint) = hint {
        telling.hint(hint);
    }
    status
}
