//! What is written of a result or a fault, and the status that the program ends with.

ghost use Rattle.std.specs.Prelude.{◌≡◌, take, Some, OnOk, IfErr};
ghost use Rattle.std.specs.List.{flat_map};
ghost use Rattle.std.specs.Io.KnownBytes.{Appends};
ghost use Rattle.des_lines.specs.Faults.{is_unseen as is_unseen_of, line_with, separator_of, shown_character, shown_text};
ghost use Rattle.des_lines.specs.Written.{AppendsPrefix, AppendsLine, AppendsLinePrefix, IsTold, IsShown};

use crate::fault::{Fault, FaultKind, Reason};
use crate::sentences::Sentences;
use des_io::StreamError;
use des_io::pieces::write_whole;
use std::io::{self, Write};

// As much as a pipe takes at once, so that lines of programs that write beside each other stay
// whole.
const MAX_LINE: usize = 4096;

// A line that is gathered to be written at once. It allocates nothing, since a lack of memory is
// reported by a line too.
#[derive(Drop)]
struct Line {
    bytes: [u8; MAX_LINE],
    length: usize,
}

impl Line {
    // The bytes that were gathered.
    fn gathered(&self) -> &[u8]
        ensures { result.now ≡ take self.now.length self.now.bytes }
    {
        &self.bytes[..self.length.min(MAX_LINE)]
    }
}

/// The line is known, and a write that does not fit takes nothing.
impl Write for Line {
    ghost contents = { λ line. Some (take line.length line.bytes) };

    fn write(&mut self, buf: &[u8]) -> io::Result<usize> {
        let start = self.length.min(MAX_LINE);
        let count = buf.len().min(MAX_LINE - start);
        self.bytes[start..start + count].copy_from_slice(&buf[..count]);
        self.length = start + count;
        Ok(count)
    }

    fn flush(&mut self) -> io::Result<()> {
        Ok(())
    }
}

/// Writes the bytes and flushes. If that fails, a prefix of them is written, and the fault is
/// `Write`.
pub fn send<W: Write>(out: &mut W, bytes: &[u8]) -> Result<(), FaultKind>
    ensures part { AppendsPrefix (W.contents out.old) (W.contents out.new) bytes.now }
    ensures whole { OnOk result (Appends (W.contents out.old) (W.contents out.new) bytes.now) }
    ensures fault { IfErr result (λ kind. (reason : Reason) × (kind ≡ FaultKind.Write reason)) }
{
    write_whole(out, bytes)?;
    out.flush()
        .map_err(|error| FaultKind::Write(Reason::of(&error)))
}

// The separator between a fault's subject and its sentence.
fn separator(about: &str) -> &'static str
    ensures { result.now ≡ separator_of about.now }
{
    if about.is_empty() { "" } else { ": " }
}

// Whether a terminal may act on a character and not show it: a control character, or one that turns
// the direction of a line.
fn is_unseen(character: char) -> bool
    ensures { result ≡ is_unseen_of character }
{
    character.is_control() || matches!(character, '\u{202A}'..='\u{202E}' | '\u{2066}'..='\u{2069}')
}

fn shown(character: char) -> char
    ensures { result ≡ shown_character character }
{
    if is_unseen(character) { '?' } else { character }
}

// Writes a text with question marks in the place of such characters.
fn write_shown<E: Write>(err: &mut E, text: &str) -> Result<(), StreamError>
    ensures part { AppendsPrefix (E.contents err.old) (E.contents err.new) (shown_text text.now) }
    ensures whole { OnOk result (Appends (E.contents err.old) (E.contents err.new)
        (shown_text text.now)) }
{
    for character in text.chars() {
        let mut buffer = [0; 4];
        write_whole(err, shown(character).encode_utf8(&mut buffer).as_bytes())?;
    }
    Ok(())
}

// Writes texts one after another.
fn write_texts<W: Write>(out: &mut W, texts: &[&str]) -> Result<(), StreamError>
    ensures part { AppendsPrefix (W.contents out.old) (W.contents out.new)
        (flat_map (λ text. text.now) texts.now) }
    ensures whole { OnOk result (Appends (W.contents out.old) (W.contents out.new)
        (flat_map (λ text. text.now) texts.now)) }
{
    for text in texts {
        write_whole(out, text.as_bytes())?;
    }
    Ok(())
}

// Writes what a line has, part by part.
fn write_parts<W: Write>(
    out: &mut W,
    name: &'static str,
    about: &str,
    words: &'static str,
) -> Result<(), StreamError>
    ensures part { AppendsPrefix (W.contents out.old) (W.contents out.new)
        (line_with name.now about.now words.now) }
    ensures whole { OnOk result (Appends (W.contents out.old) (W.contents out.new)
        (line_with name.now about.now words.now)) }
{
    write_texts(out, &["cukvashe: ", name, ": "])?;
    write_shown(out, about)?;
    write_texts(out, &[separator(about), words, "\n"])
}

/// Writes the line of a fault or a notice: its name, what it is about, if that is not empty, and a
/// sentence. Name and sentence are constants, so neither can be a secret. In what the line is
/// about, characters that a terminal may act on are replaced by question marks. The line goes out
/// in one write, unless it is longer than `MAX_LINE`.
pub fn write_line<E: Write>(
    name: &'static str,
    about: &str,
    words: &'static str,
    err: &mut E,
) -> Result<(), StreamError>
    ensures part { AppendsPrefix (E.contents err.old) (E.contents err.new)
        (line_with name.now about.now words.now) }
    ensures whole { OnOk result (Appends (E.contents err.old) (E.contents err.new)
        (line_with name.now about.now words.now)) }
{
    let mut line = Line {
        bytes: [0; MAX_LINE],
        length: 0,
    };
    match write_parts(&mut line, name, about, words) {
        Ok(()) => write_whole(err, line.gathered())?,
        Err(_) => write_parts(err, name, about, words)?,
    }
    err.flush().map_err(StreamError::Write)
}

/// Writes the line of a fault.
pub fn report<S: Sentences, E: Write>(fault: Fault, err: &mut E) -> Result<(), StreamError>
    ensures part { AppendsLinePrefix S.says fault.entry.kind fault.entry.about.now
        (E.contents err.old) (E.contents err.new) }
    ensures whole { OnOk result (AppendsLine S.says fault.entry.kind fault.entry.about.now
        (E.contents err.old) (E.contents err.new)) }
{
    let words = S::words(fault.kind);
    write_line(words.name, fault.about, words.sentence, err)
}

/// Writes the line of a fault, and returns its status. A line that can't be written changes no
/// status.
pub fn tell<S: Sentences, E: Write>(fault: Fault, err: &mut E) -> u8
    ensures { IsTold S.says E.contents fault.entry.kind fault.entry.about.now result err.old err.new }
{
    let _ = report::<S, E>(fault, err);
    fault.kind.status()
}

/// Writes a result to `out`, or the line of a fault to `err`, and returns the status that the
/// program ends with: 0 if the whole result was written, that of the fault `Write` if it was not,
/// and that of the fault. No clause says that `Write` is told only if `out` failed, since std has
/// no word for that; runs of the program show it.
pub fn show<S: Sentences, W: Write, E: Write>(
    outcome: &Result<Vec<u8>, Fault>,
    out: &mut W,
    err: &mut E,
) -> u8
    ensures { IsShown S.says W.contents E.contents outcome.now result out.old out.new err.old err.new }
{
    match outcome {
        Ok(text) => match send(out, text.as_slice()) {
            Ok(()) => 0,
            Err(kind) => tell::<S, E>(Fault::about(kind, "standard output"), err),
        },
        Err(fault) => tell::<S, E>(*fault, err),
    }
}
