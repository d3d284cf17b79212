//! What is told on standard error as the program ends.
ghost use Rattle.std.specs.Prelude.{◌≡◌, [], ◌∷◌, None, Some, true, false, string_bytes};
ghost use Rattle.std.specs.List.{list_any};
ghost use Rattle.ccr_findings.specs.Findings.{kinds};
ghost use Rattle.ccr_run.specs.Explained.{told_data, refusal_told, nothing_told, told_line, told_lines, found_lines, is_corrected, is_unused, is_vars, set_lines, unused_lines, vars_lines, unset_line, budget_line, unprinted_line};
ghost use Rattle.ccr_run.specs.Hints.{hint_data, hint_text};
ghost use Rattle.ccr_run.specs.Refusals.{refusal_data, refusal_text};
ghost use Rattle.ccr_run.specs.Writers.{GetsLines};

use crate::errors::Errors;
use crate::hint::{Hint, unset_in};
use crate::refusal::Refusal;
use ccr_findings::{Finding, Findings, Kind};
use std::alloc::Global;
use std::io::Write;
use std::snapshot::Snapshot;

/// A refusal that was told.
#[derive(Drop)]
pub struct ToldRefusal {
    words: &'static str,
    path: Option<Snapshot<String>>,
    status: u8,
}

/// Tells on standard error, a line at a time. Contracts see what was told, and what standard error has got; an error of it
/// changes nothing.
#[derive(Drop)]
pub struct Telling<'e, E: Write> {
    errors: Errors<E>,
    gates: Option<Snapshot<Findings>>,
    // The database in which no pipeline is set, if that was told.
    unset: Option<&'e str>,
    budget: Option<u32>,
    refusal: Option<ToldRefusal>,
    hint: Option<Hint<'e>>,
    is_unprinted: bool,
}

/// What is kept of a refusal that is told.
fn told(refusal: &Refusal<'_>) -> ToldRefusal
    ensures { refusal_told result ≡ refusal_data refusal.now }
{
    let path = match refusal.path {
        Some(path) => Some(Snapshot::of(path)),
        None => None,
    };
    ToldRefusal {
        words: refusal.words,
        path,
        status: refusal.status,
    }
}

/// Writes a finding, but for a key of Concourse that has no effect.
fn say_finding<E: Write>(errors: &mut Errors<E>, finding: &Finding)
    ensures { GetsLines (told_line finding.now.kind (string_bytes finding.now.line)) errors.old errors.new }
{
    match finding.kind {
        Kind::Unused => {}
        _ => errors.say(finding.line.as_str()),
    }
}

/// Writes findings, but for keys of Concourse that have no effect.
fn say_findings<E: Write>(errors: &mut Errors<E>, findings: &[Finding])
    ensures { GetsLines (told_lines findings.now) errors.old errors.new }
{
    for finding in findings {
        say_finding(errors, finding);
    }
}

/// Whether a finding is of a text that a variable was to replace.
fn is_vars(kind: Kind) -> bool
    ensures { result ≡ is_vars kind }
{
    kind == Kind::Vars
}

/// Whether a finding is of a key of Concourse without effect.
fn is_unused(kind: Kind) -> bool
    ensures { result ≡ is_unused kind }
{
    kind == Kind::Unused
}

/// Whether a finding is of what has to be corrected.
fn is_corrected(kind: Kind) -> bool
    ensures { result ≡ is_corrected kind }
{
    kind.is_wrong() && !is_vars(kind)
}

/// Whether a text is found that a variable was to replace.
fn has_vars(findings: &[Finding]) -> bool
    ensures { result ≡ list_any is_vars (kinds findings.now) }
{
    for finding in findings {
        if is_vars(finding.kind) {
            return true;
        }
    }
    false
}

/// Whether a key of Concourse without effect is found.
fn has_unused(findings: &[Finding]) -> bool
    ensures { result ≡ list_any is_unused (kinds findings.now) }
{
    for finding in findings {
        if is_unused(finding.kind) {
            return true;
        }
    }
    false
}

/// Whether something is found that has to be corrected.
fn has_corrected(findings: &[Finding]) -> bool
    ensures { result ≡ list_any is_corrected (kinds findings.now) }
{
    for finding in findings {
        if is_corrected(finding.kind) {
            return true;
        }
    }
    false
}

/// Writes what replaces keys of Concourse without effect, if one is found.
fn say_unused<E: Write>(errors: &mut Errors<E>, findings: &[Finding])
    ensures { GetsLines (unused_lines (kinds findings.now)) errors.old errors.new }
{
    if has_unused(findings) {
        errors.say(
            "hint: unused: these keys of Concourse have no effect; ccr_run validate-pipeline FILE says of each what \
             to do instead",
        );
    }
}

/// Writes what a variable means, if one is found.
fn say_vars<E: Write>(errors: &mut Errors<E>, findings: &[Finding])
    ensures { GetsLines (vars_lines (kinds findings.now)) errors.old errors.new }
{
    if has_vars(findings) {
        errors.say(
            "hint: vars: no variable is put in, and a text with ((..)) stays as it stands: write its value in its \
             place, and set it again, unless it is arithmetic of a shell",
        );
    }
}

/// Writes that a pipeline is set, if something in it has to be corrected.
fn say_set<E: Write>(errors: &mut Errors<E>, findings: &[Finding])
    ensures { GetsLines (set_lines (kinds findings.now)) errors.old errors.new }
{
    if has_corrected(findings) {
        errors.say("hint: it is set all the same; correct what is named above, and set it again");
    }
}

impl<'e, E: Write> Telling<'e, E> {
    /// Nothing is told yet; what is will go to this writer.
    pub fn new(alloc: Global, writer: E) -> Telling<'e, E>
        ensures told { told_data result ≡ nothing_told }
        ensures errors { result.errors ≡ record { got = E.contents writer; failed = false } }
    {
        Telling {
            errors: Errors::new(alloc, writer),
            gates: None,
            unset: None,
            budget: None,
            refusal: None,
            hint: None,
            is_unprinted: false,
        }
    }

    /// Tells what was found in a pipeline that was set, but for keys of Concourse that have no effect: the command
    /// lists those. And then what to do about it, if it isn't what it should be.
    pub fn gates(&mut self, findings: &Findings)
        ensures told { told_data self.new
            ≡ record (told_data self.old) { gates = Some (found_lines findings.now.items) } }
        ensures wrote { GetsLines (found_lines findings.now.items) self.old.errors self.new.errors }
    {
        self.gates = Some(Snapshot::of(findings));
        say_findings(&mut self.errors, findings);
        say_unused(&mut self.errors, findings);
        say_vars(&mut self.errors, findings);
        say_set(&mut self.errors, findings);
    }

    /// Tells that no pipeline is set in the database at this path.
    pub fn unset(&mut self, path: &'e str)
        requires { (told_data self.old).gates ≡ None }
        ensures told { told_data self.new ≡ record (told_data self.old) { gates = Some (unset_line path.now ∷ []) } }
        ensures wrote { GetsLines (unset_line path.now ∷ []) self.old.errors self.new.errors }
    {
        self.unset = Some(path);
        self.errors.say(unset_in(path));
    }

    /// Tells that a search would go over this budget.
    pub fn over_budget(&mut self, budget: u32)
        ensures told { told_data self.new ≡ record (told_data self.old) { budget = Some budget } }
        ensures wrote { GetsLines (budget_line budget ∷ []) self.old.errors self.new.errors }
    {
        self.budget = Some(budget);
        self.errors.say(format_args!("over budget {budget}"));
    }

    /// Tells a refusal.
    pub fn refusal(&mut self, refusal: Refusal<'_>)
        ensures told { told_data self.new ≡ record (told_data self.old) { refusal = Some (refusal_data refusal.entry) } }
        ensures wrote { GetsLines (refusal_text (refusal_data refusal.entry) ∷ []) self.old.errors self.new.errors }
    {
        self.refusal = Some(told(&refusal));
        self.errors.say(refusal);
    }

    /// Tells what to do about it.
    pub fn hint(&mut self, hint: Hint<'e>)
        ensures told { told_data self.new ≡ record (told_data self.old) { hint = Some (hint_data hint.entry) } }
        ensures wrote { GetsLines (hint_text (hint_data hint.entry) ∷ []) self.old.errors self.new.errors }
    {
        self.hint = Some(hint);
        self.errors.say(hint);
    }

    /// Tells that not all lines went out.
    pub fn unprinted(&mut self)
        ensures told { told_data self.new ≡ record (told_data self.old) { is_unprinted = true } }
        ensures wrote { GetsLines (unprinted_line ∷ []) self.old.errors self.new.errors }
    {
        self.is_unprinted = true;
        self.errors.say("refused: standard output: cannot write");
    }
}
