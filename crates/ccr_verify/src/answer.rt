//! What the program answers to what it is given.

ghost use Rattle.std.specs.Prelude.{◌≡◌, ◌≢◌, IfOk, IfErr, string_bytes};
ghost use Rattle.std.specs.Io.KnownBytes.{Appends};
ghost use Rattle.std.specs.Process.{exit_status};
ghost use Rattle.ccr_check.specs.declared.input.InputFault.TheVariants.{WrongWords};
ghost use Rattle.ccr_verify.specs.Answers.{IsJudgedFrom, IsAnswer};
ghost use Rattle.ccr_verify.specs.Sources.{bytes_of};

use crate::source::{Source, read};
use crate::tell::tell;
use ccr_check::{InputFault, judge};
use std::alloc::Global;
use std::io;
use std::io::{Read, Write};
use std::process::ExitCode;
use std::test::Fail;

/// The line and the status for all that a source holds.
fn judged<I: Read + Drop, F: Read + Drop>(
    alloc: Global,
    source: &mut Source<I, F>,
) -> Result<(String, u8), InputFault>
    ensures judged { IfOk result (λ x. IsJudgedFrom (bytes_of I.remaining F.remaining source.old) (string_bytes x.0, x.1)) }
    ensures words { IfErr result (λ fault. fault ≢ WrongWords) }
{
    let bytes = read(alloc, source)?;
    let told = judge(alloc, &bytes)?;
    Ok(told)
}

/// Judges what the source holds, and tells it: the line on `out` alone, or on `errors` why there is none; the exit
/// status. The only errors are those of writing.
pub(crate) fn answer<I: Read + Drop, F: Read + Drop, W: Write, E: Write>(
    alloc: Global,
    source: Result<Source<I, F>, InputFault>,
    out: &mut W,
    errors: &mut E,
) -> io::Result<ExitCode>
    ensures answered { IfOk result (λ code. IsAnswer (bytes_of I.remaining F.remaining) source (exit_status code)
        (Appends (W.contents out.old) (W.contents out.new)) (Appends (E.contents errors.old) (E.contents errors.new))) }
{
    match source {
        Ok(source) => {
            let mut source = source;
            let told = judged(alloc, &mut source);
            tell(out, errors, told)
        }
        Err(fault) => tell(out, errors, Err(fault)),
    }
}

#[test]
fn standard_input_is_judged_to_its_end(rt: HostRuntime) -> Result<(), Fail> {
    let text = "problem 1\ninputs 2\n0 jobs 0 places 1 2 3\n1 jobs 0 places 1 2\njobs 1\nbuilds 2\n\
        10 pairs 0 2 1 2\n9 pairs 0 3 1 1\nbest 3 2 builds 9\n";
    let input: Source<&[u8], &[u8]> = Source::Input(text.as_bytes());
    let mut out: Vec<u8> = Vec::new(rt.alloc());
    let mut errors: Vec<u8> = Vec::new(rt.alloc());
    answer(rt.alloc(), Ok(input), &mut out, &mut errors)?;
    assert!(rt; out.as_slice() == b"refused: choice: input 1 not passed job 0\n".as_slice());
    assert!(rt; errors.is_empty());
    Ok(())
}
