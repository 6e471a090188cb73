//! A reader that counts the bytes of another, and tells of them on standard error.

ghost use Rattle.des_commands.specs.Notices.{TellsLimit};

use crate::outputs::notices::{Notice, is_past_limit, tell};
use crate::outputs::progress::Progress;
use des_io::Padding;
use des_requests::streams::{CipherMode, StreamMode, StreamRequest};
use std::io::{self, Read, Write};

/// A reader that gives the bytes of another.
#[derive(Drop)]
pub struct ProgressReader<'a, R> {
    rt: &'a HostRuntime,
    inner: R,
    bytes: u64,
    // The padding of what is encrypted, while the limit on blocks under one key is still to be
    // reported.
    limit: Option<Padding>,
    // For the limit, each byte counts as this many: CFB-8 encrypts a block for each.
    weight: u64,
    progress: Option<Progress>,
}

// Reports that the limit is passed. Returns what is left to be reported: nothing once that was
// done.
fn tell_limit<E: Write>(limit: Option<Padding>, bytes: u64, err: &mut E) -> Option<Padding>
    ensures { TellsLimit limit bytes result (E.contents err.old) (E.contents err.new) }
{
    match limit {
        Some(padding) if is_past_limit(padding, bytes) => {
            let _ = tell(Notice::Limit, "", err);
            None
        }
        _ => limit,
    }
}

// The padding by which blocks are counted, and how much each byte counts.
fn counting_of(request: &StreamRequest) -> (Padding, u64) {
    match request.mode {
        CipherMode::Stream(StreamMode::Cfb8) => (Padding::Zeros, 8),
        CipherMode::Stream(_) => (Padding::Zeros, 1),
        _ => (request.padding, 1),
    }
}

// What tells of progress, if anything does.
fn progress_of(rt: &HostRuntime, shows_progress: bool, total: Option<u64>) -> Option<Progress> {
    if shows_progress {
        Progress::begin(rt, total)
    } else {
        None
    }
}

impl<'a, R: Read + Drop> ProgressReader<'a, R> {
    /// A reader of the bytes of `inner`, none of which was counted, for what is asked for. `total`
    /// is how many there are to read, if that is known.
    pub fn new(
        rt: &'a HostRuntime,
        inner: R,
        request: &StreamRequest,
        total: Option<u64>,
    ) -> ProgressReader<'a, R> {
        let (padding, weight) = counting_of(request);
        ProgressReader {
            rt,
            inner,
            bytes: 0,
            limit: request.encrypts.then_some(padding),
            weight,
            progress: progress_of(rt, request.shows_progress, total),
        }
    }

    /// A reader of the bytes of `inner` that tells of no limit. If `shows_progress` is set, it
    /// tells of progress; `total` is how many bytes there are to read, if that is known.
    pub fn of_progress(
        rt: &'a HostRuntime,
        inner: R,
        shows_progress: bool,
        total: Option<u64>,
    ) -> ProgressReader<'a, R> {
        ProgressReader {
            rt,
            inner,
            bytes: 0,
            limit: None,
            weight: 1,
            progress: progress_of(rt, shows_progress, total),
        }
    }

    /// Ends the reader: the last line is written, if lines are.
    pub fn end(self) {
        if let Some(progress) = self.progress {
            progress.end(self.rt, self.bytes);
        }
    }
}

impl<'a, R: Read> Read for ProgressReader<'a, R> {
    ghost remaining = { λ reader. R.remaining reader.inner };

    fn read(&mut self, buf: &mut [u8]) -> io::Result<usize> {
        let n = self.inner.read(buf)?;
        self.bytes = self.bytes.saturating_add(n as u64);
        let counted = self.bytes.saturating_mul(self.weight);
        self.limit = tell_limit(self.limit, counted, &mut self.rt.stderr());
        if let Some(progress) = self.progress {
            self.progress = Some(progress.go_on(self.rt, self.bytes));
        }
        Ok(n)
    }
}
