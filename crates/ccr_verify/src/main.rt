//! `ccr_verify`: judges anybody's claims about problems.
//!
//! It reads a problem's text that is followed by a claim's or a proof's, from standard input or from two files, prints
//! one line, and ends with that line's status. All that it decides is decided by [`judge`](ccr_check::judge), whose
//! contract names the definitions. `answer` has no runtime: it reads what it is given and writes to what it is given,
//! as its contract says. What is trusted is one line: that `main` gives it what the program's words name, standard
//! output and standard error.
#![tactic(auto)]

mod answer;
mod source;
mod tell;

use answer::answer;
use source::source_of;
use std::io;
use std::process::ExitCode;

fn main(rt: HostRuntime) -> io::Result<ExitCode> {
    answer(
        rt.alloc(),
        source_of(&rt),
        &mut io::writer(&rt),
        &mut rt.stderr(),
    )
}
