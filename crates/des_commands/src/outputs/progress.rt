//! How far a stream is, as lines on standard error show it.

use des_lines::report::send;
use std::alloc::{AllocError, Global};
use std::io::IsTerminal;
use std::time::{Duration, Instant};

// The number of bytes that were read at a time.
#[derive(Clone, Copy)]
struct Sample {
    at: Instant,
    bytes: u64,
}

// The least time between two lines.
const MILLISECONDS_BETWEEN: u64 = 500;

/// When a stream began, and what was read of it at the last lines.
#[derive(Clone, Copy)]
pub struct Progress {
    first: Sample,
    // Those of the last eight lines, the oldest first.
    samples: [Sample; 8],
    // The bytes that there are to read, if that is known.
    total: Option<u64>,
    // Lines are written on the way, and not only the last one.
    goes_on: bool,
}

// Bytes a second between two samples: less than a millisecond counts as one.
fn rate_of(from: Sample, to: Sample) -> u64 {
    let bytes = to.bytes.saturating_sub(from.bytes) as u128;
    let milliseconds = to.at.duration_since(from.at).as_millis().max(1);
    (bytes * 1000 / milliseconds).min(u64::MAX as u128) as u64
}

// The line of a stream that goes on: bytes, the rate in millions of bytes a second, and if the
// length is known the share, at most 100 also if a file grew meanwhile, and the time left.
fn line_of(alloc: Global, bytes: u64, rate: u64, total: Option<u64>) -> Result<String, AllocError> {
    let whole = rate / 1000000;
    let tenths = rate / 100000 % 10;
    match total {
        None => format!(in alloc; "cukvashe: {bytes} bytes, {whole}.{tenths} MB/s\n"),
        Some(total) => {
            let share = (bytes as u128 * 100 / total.max(1) as u128).min(100);
            let left = total.saturating_sub(bytes).div_ceil(rate.max(1));
            format!(in alloc;
                "cukvashe: {bytes} bytes, {whole}.{tenths} MB/s, {share} %, {left} s left\n"
            )
        }
    }
}

// The line of a stream that ended: all bytes, the seconds that it took, and the mean rate.
fn last_line(alloc: Global, first: Sample, last: Sample) -> Result<String, AllocError> {
    let bytes = last.bytes;
    let milliseconds = last.at.duration_since(first.at).as_millis();
    let seconds = milliseconds / 1000;
    let tenth = milliseconds / 100 % 10;
    let rate = rate_of(first, last);
    let whole = rate / 1000000;
    let tenths = rate / 100000 % 10;
    format!(in alloc; "cukvashe: {bytes} bytes in {seconds}.{tenth} s, {whole}.{tenths} MB/s\n")
}

// Writes a line, if there was memory for it.
fn show(rt: &HostRuntime, line: Result<String, AllocError>) {
    if let Ok(line) = line {
        let _ = send(&mut rt.stderr(), line.as_bytes());
    }
}

impl Progress {
    /// A stream that begins, unless the clock can't be read. If standard error is no terminal,
    /// the last line alone is written.
    pub fn begin(rt: &HostRuntime, total: Option<u64>) -> Option<Progress> {
        let at = Instant::now(rt).ok()?;
        let first = Sample { at, bytes: 0 };
        Some(Progress {
            first,
            samples: [first; 8],
            total,
            goes_on: rt.stderr().is_terminal(),
        })
    }

    /// Writes a line if the last one is long ago. A clock that can't be read shows nothing.
    pub fn go_on(self, rt: &HostRuntime, bytes: u64) -> Progress {
        let Ok(at) = Instant::now(rt) else {
            return self;
        };
        let [oldest, second, third, fourth, fifth, sixth, seventh, last] = self.samples;
        let since = at.duration_since(last.at);
        if !self.goes_on || since < Duration::from_millis(MILLISECONDS_BETWEEN) {
            return self;
        }
        let sample = Sample { at, bytes };
        show(
            rt,
            line_of(rt.alloc(), bytes, rate_of(oldest, sample), self.total),
        );
        Progress {
            samples: [second, third, fourth, fifth, sixth, seventh, last, sample],
            ..self
        }
    }

    /// Writes the last line.
    pub fn end(self, rt: &HostRuntime, bytes: u64) {
        if let Ok(at) = Instant::now(rt) {
            show(rt, last_line(rt.alloc(), self.first, Sample { at, bytes }));
        }
    }
}
