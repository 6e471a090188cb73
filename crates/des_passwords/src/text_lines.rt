//! Lines of a text.

ghost use Rattle.std.specs.Prelude.{◌≡◌, ◌==◌, ◌<◌, ◌∷◌, [], length, position, IfSome, MatchOption};
ghost use Rattle.std.specs.Str.Lines.{strip_carriage_return};
ghost use Rattle.des_passwords.specs.TextLines.{IsLineBefore, after, are_blanks as are_blanks_of, before, is_line as is_line_of, lines_of, trimmed as trimmed_of};

// The place of the first such byte.
fn place(byte: u8, text: &[u8]) -> Option<usize>
    ensures { result ≡ position (λ b. b == byte) text.now }
{
    text.iter().position(|b| *b == byte)
}

/// What stands before the first such byte, and what stands after it: all and nothing if there is
/// none.
pub fn cut(byte: u8, text: &[u8]) -> (&[u8], &[u8])
    ensures before { result.0.now ≡ before byte text.now }
    ensures after { result.1.now ≡ after byte text.now }
{
    match place(byte, text) {
        Some(i) => (&text[..i], &text[i + 1..]),
        None => (text, &text[text.len()..]),
    }
}

// A text without the blanks at its ends.
pub(crate) fn trimmed(text: &[u8]) -> &[u8]
    ensures { result.now ≡ trimmed_of text.now }
{
    text.trim_ascii()
}

// Whether a line is this text, blanks at its end apart.
pub(crate) fn is_line(line: &[u8], wanted: &[u8]) -> bool
    ensures { result ≡ is_line_of line.now wanted.now }
{
    line.trim_ascii_end() == wanted
}

// Whether a text is blanks alone.
pub(crate) fn are_blanks(text: &[u8]) -> bool
    ensures { result ≡ are_blanks_of text.now }
{
    text.iter().all(|byte| byte.is_ascii_whitespace())
}

// A line without the carriage return at its end.
fn without_return(line: &[u8]) -> &[u8]
    ensures { result.now ≡ strip_carriage_return line.now }
{
    match line {
        [front @ .., b'\r'] => front,
        _ => line,
    }
}

// The first line, and what follows it.
pub(crate) fn first_line(text: &[u8]) -> Option<(&[u8], &[u8])>
    ensures lines { MatchOption result (lines_of text.now ≡ [])
        (λ x. lines_of text.now ≡ x.0.now ∷ lines_of x.1.now) }
    ensures shorter { MatchOption result (length text.now ≡ 0)
        (λ x. length x.1.now < length text.now) }
    ensures parts { IfSome result (λ x. IsLineBefore text.now x.0.now x.1.now) }
{
    if text.is_empty() {
        return None;
    }
    let (line, rest) = cut(b'\n', text);
    if line.len() == text.len() {
        return Some((line, rest));
    }
    Some((without_return(line), rest))
}
