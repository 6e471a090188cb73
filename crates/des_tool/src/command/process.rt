//! The process: its arguments are answered as they were read, and the answer is shown.

ghost use Rattle.std.specs.Prelude.{◌≡◌, ℕ, List, Result, Ok, Err, IfOk, IfErr, OnErr};
ghost use Rattle.std.specs.IoError.{error_kind};
ghost use Rattle.std.specs.Process.{exit_status};
ghost use Rattle.des_tool.specs.Request.{texts};
ghost use Rattle.des_tool.specs.Run.{fault_of_kind, IsReadAs, IsRun};

use super::answers::answer;
use super::fault::Fault;
use super::status::show;
use std::alloc::Global;
use std::env::Args;
use std::io::{self, ErrorKind, Write};
use std::process::ExitCode;

/// Answers the arguments of a command line, without the program's own name, writes what `show`
/// writes, and gives its status as the exit status.
pub fn run_on<W: Write, E: Write>(
    alloc: Global,
    arguments: &[&str],
    out: &mut W,
    err: &mut E,
) -> ExitCode
    ensures { IsRun W.contents E.contents (Ok (texts arguments.now)) (exit_status result)
        out.old out.new err.old err.new }
{
    ExitCode::from(show(&answer(alloc, arguments), out, err))
}

/// Runs on the arguments that `env::args` read, as `run_on` does on those after the first, which is
/// the program's own name. Arguments that are not text are at fault, as those that have no shape
/// that is known.
pub fn run<W: Write, E: Write>(
    alloc: Global,
    arguments: io::Result<Args>,
    out: &mut W,
    err: &mut E,
) -> ExitCode
    ensures { (read : Result (List (List ℕ)) Fault) × IsReadAs arguments read
        × IsRun W.contents E.contents read (exit_status result) out.old out.new err.old err.new }
{
    match run_args(alloc, arguments, out, err) {
        Ok(code) => code,
        Err(fault) => ExitCode::from(show(&Err(fault), out, err)),
    }
}

// Fails only before anything is written: the arguments were not read, or memory was refused.
fn run_args<W: Write, E: Write>(
    alloc: Global,
    arguments: io::Result<Args>,
    out: &mut W,
    err: &mut E,
) -> Result<ExitCode, Fault>
    ensures ran { IfOk result (λ code. (read : List (List ℕ)) × IsReadAs arguments (Ok read)
        × IsRun W.contents E.contents (Ok read) (exit_status code)
        out.old out.new err.old err.new) }
    ensures fault { IfErr result (λ fault. IsReadAs arguments (Err fault)) }
    ensures out { OnErr result (out.new ≡ out.old) }
    ensures err { OnErr result (err.new ≡ err.old) }
{
    let arguments = arguments.map_err(fault_of_error)?;
    let arguments: Vec<String> = arguments.skip(1).collect(alloc)?;
    let arguments: Vec<&str> = arguments
        .iter()
        .map(|argument| argument.as_str())
        .collect(alloc)?;
    Ok(run_on(alloc, arguments.as_slice(), out, err))
}

// Arguments that are not text have no shape that is known.
fn fault_of_error(error: io::Error) -> Fault
    ensures { result ≡ fault_of_kind (error_kind error) }
{
    match error.kind() {
        ErrorKind::OutOfMemory => Fault::Memory,
        _ => Fault::Usage,
    }
}
