//! What the program prints, and the status that it ends with.

ghost use Rattle.std.specs.Prelude.{◌≡◌, IfOk, OnOk};
ghost use Rattle.std.specs.Io.KnownBytes.{Appends};
ghost use Rattle.std.specs.Process.{exit_status};
ghost use Rattle.ccr_verify.specs.Told.{explained, printed, said, status_of};

use ccr_check::InputFault;
use std::io;
use std::io::Write;
use std::process::ExitCode;

/// Prints the line that was judged on `out`, or on `errors` why there is none, and gives the exit status: the line's own; 2 for
/// another number of words; 4 where nothing could be read or memory was refused. The only errors are those of writing.
pub(crate) fn tell<W: Write, E: Write>(
    out: &mut W,
    errors: &mut E,
    judged: Result<(String, u8), InputFault>,
) -> io::Result<ExitCode>
    ensures status { IfOk result (λ code. exit_status code ≡ status_of (said judged)) }
    ensures printed { OnOk result (Appends (W.contents out.old) (W.contents out.new) (printed (said judged))) }
    ensures explained { OnOk result (Appends (E.contents errors.old) (E.contents errors.new) (explained (said judged))) }
{
    match judged {
        Ok((line, status)) => {
            out.writeln(line)?;
            out.flush()?;
            Ok(ExitCode::from(status))
        }
        Err(fault) => {
            errors.writeln(fault)?;
            match fault {
                InputFault::WrongWords => Ok(ExitCode::from(2)),
                InputFault::Unreadable | InputFault::NoMemory => Ok(ExitCode::from(4)),
            }
        }
    }
}
