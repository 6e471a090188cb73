//! Values in lines: they are read, opened as a column, and answered by a line each.

pub mod answers;
pub mod columns;
pub mod line_fault;
pub mod line_kind;
pub mod openers;

ghost use Rattle.std.specs.Prelude.{◌≡◌, ◌<◌, ◌||◌, ◌++◌, ◌∷◌, [], ℕ, List, false, true, length, is_none, IfSome, IfOk, IfErr, OnOk, OnErr};
ghost use Rattle.std.specs.Io.KnownBytes.{Consumes};
ghost use Rattle.std.specs.List.{concat};
ghost use Rattle.std.specs.Result.{result_err};
ghost use Rattle.des_commands.specs.Sources.{FailsToRead};
ghost use Rattle.des_commands.specs.LineAnswers.{IsOutcome, Outcome};
ghost use Rattle.des_commands.specs.LineColumns.{start_of, AddsLine, AreOutcomes, IsColumnOf, IsOutcomeAt, IsWhole};
ghost use Rattle.des_commands.specs.LineRuns.{end_of, status_of as status_by, streams_of, AddsAnswers, Answers, FailsToRun, GoesOn, IsRun, RunsOn, StopsAfter, Tells};
ghost use Rattle.des_commands.specs.LineKinds.{ReadsLines};

use crate::inputs::files::read_fault;
use answers::add_outcome;
use columns::{LineColumn, Opener, open_column};
use des_io::pieces::write_whole;
use des_lines::fault::{FaultKind, Reason};
use des_requests::lines::LineCoding;
use line_fault::{LineFault, tell_line};
use line_kind::{LineKind, add_value};
use std::alloc::{AllocError, Global};
use std::io::{BufRead, Write};

/// The status of a run that went on after faults of lines, and of one that ended at the first.
pub const SOME_LINES: u8 = 6;

pub const FIRST_FAULT: u8 = 5;

// The lines that are read at a time, unless their values have more bytes sooner.
const LINES_AT_A_TIME: u64 = 4096;

const BYTES_AT_A_TIME: usize = 262144;

/// What is done with lines.
#[derive(Clone, Copy)]
pub struct LinesJob<'a> {
    pub coding: LineCoding,
    /// Texts are written as hexadecimal digits.
    pub writes_digits: bool,
    /// A line that has no answer is answered by an empty one, and does not end the run.
    pub keeps_going: bool,
    /// What faults call the input.
    pub name: &'a str,
}

// How far a run has come.
#[derive(Clone, Copy)]
struct Tally {
    // The number of the next line, the first being 1.
    line: u64,
    has_faults: bool,
}

// What pieces of a run are read, opened and written in.
#[derive(Drop)]
struct Buffers {
    line: Vec<u8>,
    column: LineColumn,
    out: Vec<u8>,
}

// The status of a run that has ended.
fn status_of(keeps_going: bool, has_faults: bool) -> u8
    ensures { result ≡ status_by keeps_going has_faults }
{
    match (keeps_going, has_faults) {
        (_, false) => 0,
        (true, true) => SOME_LINES,
        (false, true) => FIRST_FAULT,
    }
}

// Reads a line, and adds its value to a column. Returns whether there was one.
fn read_line<R: BufRead>(
    coding: LineCoding,
    reader: &mut R,
    line: &mut Vec<u8>,
    column: &mut LineColumn,
) -> Result<bool, FaultKind>
    ensures consumed { (bytes : List ℕ)
        × Consumes (R.remaining reader.old) (R.remaining reader.new) bytes }
    ensures line { IfOk result (λ there. AddsLine coding there column.old column.new
        (R.remaining reader.old) (R.remaining reader.new)) }
    ensures fault { IfErr result FailsToRead }
{
    line.clear();
    match reader.read_until(b'\n', line) {
        Ok(0) => return Ok(false),
        Ok(_) => {}
        Err(error) => return Err(read_fault(error)),
    }
    let start = column.values.len();
    let kind = add_value(coding, line, &mut column.values)?;
    column.kinds.push(kind)?;
    column.lengths.push(column.values.len() - start)?;
    Ok(true)
}

// Reads lines, and makes a column of their values. Returns whether more may follow.
fn read_lines<R: BufRead>(
    coding: LineCoding,
    reader: &mut R,
    line: &mut Vec<u8>,
    column: &mut LineColumn,
) -> Result<bool, FaultKind>
    ensures consumed { OnErr result ((bytes : List ℕ)
        × Consumes (R.remaining reader.old) (R.remaining reader.new) bytes) }
    ensures lines { IfOk result (λ more. (lines : List (List ℕ))
        × ReadsLines lines (R.remaining reader.old) (R.remaining reader.new)
        × IsColumnOf coding lines column.new.kinds.items column.new.values.items
        column.new.lengths.items
        × (more ≡ false → IfSome (R.remaining reader.old) (λ bytes. bytes ≡ concat lines))) }
    ensures fault { IfErr result FailsToRead }
{
    column.kinds.clear();
    column.values.clear();
    column.lengths.clear();
    'lines: for _ in 0..LINES_AT_A_TIME {
        if column.values.len() >= BYTES_AT_A_TIME {
            return Ok(true);
        }
        if !read_line(coding, reader, line, column)? {
            return Ok(false);
        }
    }
    Ok(true)
}

// Counts a line, and tells why it has no answer, if it has none. What can't be written on `err` is
// no fault: no clause says that only a line that it failed to take is left out, since std has no
// word for that.
fn count_line<E: Write>(
    alloc: Global,
    job: &LinesJob,
    fault: Option<LineFault>,
    tally: &mut Tally,
    err: &mut E,
) -> Result<(), AllocError>
    ensures told { OnOk result ((outcome : Outcome) → result_err outcome ≡ fault
        → Answers job.now (outcome ∷ []) tally.old tally.new (E.contents err.old) (E.contents err.new)) }
    ensures memory { OnErr result (err.new ≡ err.old) }
{
    if let Some(fault) = fault {
        if let Err(FaultKind::Memory) = tell_line(alloc, fault, job.name, tally.line, err) {
            return Err(AllocError);
        }
        tally.has_faults = true;
    }
    tally.line = tally.line.saturating_add(1);
    Ok(())
}

// Whether a run goes on after a line.
fn goes_on(keeps_going: bool, fault: Option<LineFault>) -> bool
    ensures { result ≡ (keeps_going || is_none fault) }
{
    keeps_going || fault.is_none()
}

// Ends a line, if the run goes on.
fn end_line(goes_on: bool, out: &mut Vec<u8>) -> Result<(), AllocError>
    ensures { OnOk result (out.new.items ≡ out.old.items ++ end_of goes_on) }
{
    if goes_on {
        out.push(b'\n')?;
    }
    Ok(())
}

// Adds the answer of a line, or tells why it has none. Returns whether the run goes on. The fault
// is `Memory`; it comes before anything is reported.
fn answer_line<E: Write>(
    alloc: Global,
    job: &LinesJob,
    kind: LineKind,
    text: &[u8],
    status: i32,
    tally: &mut Tally,
    out: &mut Vec<u8>,
    err: &mut E,
) -> Result<bool, FaultKind>
    ensures answered { IfOk result (λ goes_on. (outcome : Outcome)
        × IsOutcome job.now.writes_digits kind text.now status outcome
        × AddsAnswers job.now goes_on 1 (outcome ∷ []) tally.old tally.new
        (E.contents err.old) (E.contents err.new) out.old.items out.new.items) }
    ensures fault { IfErr result (λ kind. kind ≡ FaultKind.Memory) }
    ensures untold { OnErr result (err.new ≡ err.old) }
{
    let fault = add_outcome(alloc, job.writes_digits, kind, text, status, out)?;
    let goes_on = goes_on(job.keeps_going, fault);
    end_line(goes_on, out)?;
    count_line(alloc, job, fault, tally, err)?;
    Ok(goes_on)
}

// Adds the answer of line `at` of a column, the first being 0, whose text begins at byte `from` of
// the texts.
fn answer_at<E: Write>(
    alloc: Global,
    job: &LinesJob,
    column: &LineColumn,
    at: usize,
    from: usize,
    tally: &mut Tally,
    out: &mut Vec<u8>,
    err: &mut E,
) -> Result<bool, FaultKind>
    requires column { IsWhole column.now }
    requires at { at < length column.now.kinds.items }
    requires from { from ≡ start_of column.now.lengths.items at }
    ensures answered { IfOk result (λ goes_on. (outcome : Outcome)
        × IsOutcomeAt job.now.writes_digits column.now at outcome
        × AddsAnswers job.now goes_on 1 (outcome ∷ []) tally.old tally.new
        (E.contents err.old) (E.contents err.new) out.old.items out.new.items) }
    ensures fault { IfErr result (λ kind. kind ≡ FaultKind.Memory) }
    ensures untold { OnErr result (err.new ≡ err.old) }
{
    let (kind, status) = (column.kinds[at], column.statuses[at]);
    let text = column.text(at, from);
    answer_line(alloc, job, kind, text, status, tally, out, err)
}

// Adds the answers of a column's lines, and tells of those that have none. Returns whether the run
// goes on. The fault is `Memory`; the first lines may have been reported.
fn add_answers<E: Write>(
    alloc: Global,
    job: &LinesJob,
    column: &LineColumn,
    tally: &mut Tally,
    out: &mut Vec<u8>,
    err: &mut E,
) -> Result<bool, FaultKind>
    requires column { IsWhole column.now }
    ensures answered { IfOk result (λ goes_on. (outcomes : List Outcome)
        × AreOutcomes job.now.writes_digits column.now outcomes
        × AddsAnswers job.now goes_on (length column.now.kinds.items) outcomes tally.old tally.new
        (E.contents err.old) (E.contents err.new) out.old.items out.new.items) }
    ensures fault { IfErr result (λ kind. kind ≡ FaultKind.Memory) }
    ensures told { OnErr result ((outcomes : List Outcome)
        × AreOutcomes job.now.writes_digits column.now outcomes
        × GoesOn job.now.keeps_going true (length outcomes) outcomes
        × Tells job.now.name.now tally.old.line outcomes (E.contents err.old) (E.contents err.new)) }
{
    let mut from = 0;
    'lines: for at in 0..column.kinds.len() {
        if !answer_at(alloc, job, column, at, from, tally, out, err)? {
            return Ok(false);
        }
        from += column.lengths[at];
    }
    Ok(true)
}

// Reads lines, and answers them. Returns whether the run goes on.
fn run_piece<O: Opener, R: BufRead, W: Write, E: Write>(
    alloc: Global,
    job: &LinesJob,
    opener: &O,
    buffers: &mut Buffers,
    tally: &mut Tally,
    reader: &mut R,
    writer: &mut W,
    err: &mut E,
) -> Result<bool, FaultKind>
    ensures runs { IfOk result (λ again. RunsOn (O.opens opener.now) job.now again tally.old tally.new
        (streams_of (R.remaining reader.old) (W.contents writer.old) (E.contents err.old))
        (streams_of (R.remaining reader.new) (W.contents writer.new) (E.contents err.new))) }
    ensures fault { IfErr result FailsToRun }
    ensures stopped { OnErr result (StopsAfter (O.opens opener.now) job.now tally.old.line
        (streams_of (R.remaining reader.old) (W.contents writer.old) (E.contents err.old))
        (streams_of (R.remaining reader.new) (W.contents writer.new) (E.contents err.new))) }
{
    let more = read_lines(job.coding, reader, &mut buffers.line, &mut buffers.column)?;
    open_column(opener, &mut buffers.column)?;
    buffers.out.clear();
    let goes_on = add_answers(alloc, job, &buffers.column, tally, &mut buffers.out, err)?;
    write_whole(writer, buffers.out.as_slice())?;
    Ok(more & goes_on)
}

/// Opens the value of each line that a reader gives, and writes its text, a line each. Blanks
/// around a value don't count. A line with nothing else is answered by an empty one, and a word for
/// what is no value by itself (`NullWord`).
///
/// A line whose value can't be read or opened, or whose text fits no line, is reported on `err` by
/// its number. It is answered by an empty line if the job keeps going, and otherwise ends the run.
/// Returns 0, or `SOME_LINES` or `FIRST_FAULT` if there were such lines. The writer is not flushed.
///
/// The fault is `Memory`, `Read` or `Write`. What was written is then a prefix of the answers of
/// lines that were read; faults of later lines may have been reported too.
pub fn run<O: Opener, R: BufRead, W: Write, E: Write>(
    alloc: Global,
    job: &LinesJob,
    opener: &O,
    reader: &mut R,
    writer: &mut W,
    err: &mut E,
) -> Result<u8, FaultKind>
    ensures run { IfOk result (λ status. IsRun (O.opens opener.now) job.now status
        (streams_of (R.remaining reader.old) (W.contents writer.old) (E.contents err.old))
        (streams_of (R.remaining reader.new) (W.contents writer.new) (E.contents err.new))) }
    ensures fault { IfErr result FailsToRun }
    ensures stopped { OnErr result (StopsAfter (O.opens opener.now) job.now 1
        (streams_of (R.remaining reader.old) (W.contents writer.old) (E.contents err.old))
        (streams_of (R.remaining reader.new) (W.contents writer.new) (E.contents err.new))) }
{
    let mut buffers = Buffers {
        line: Vec::new(alloc),
        column: LineColumn::new(alloc),
        out: Vec::new(alloc),
    };
    let mut tally = Tally {
        line: 1,
        has_faults: false,
    };
    'pieces: for _ in 0..u64::MAX {
        if !run_piece(
            alloc,
            job,
            opener,
            &mut buffers,
            &mut tally,
            reader,
            writer,
            err,
        )? {
            return Ok(status_of(job.keeps_going, tally.has_faults));
        }
    }
    Err(FaultKind::Read(Reason::Other))
}
