// The lines of a text.
ghost use Rattle.std.specs.Prelude.{◌≡◌, ℕ, ◌-◌, ◌<◌, ◌≤◌, ◌∷◌, ◌++◌, length, take, drop, ◌≢◌, slice_index};
ghost use Rattle.text.specs.Lines.{without_cr, first_line, after_line, lines_of, passed_over};

use crate::blanks;
use memchr::{memchr, memrchr};

// How many bytes of the text its whole lines take, each with its LF.
pub fn whole_lines(text: &[u8]) -> usize
    ensures within { result ≤ length text.now }
    ensures whole { 0 < result → slice_index text.now (result - 1) ≡ 10 }
    ensures left { (k : ℕ) → result ≤ k → k < length text.now → slice_index text.now k ≢ 10 }
    ensures lines { lines_of text.now ≡ lines_of (take result text.now) ++ lines_of (drop result text.now) }
{
    match memrchr(b'\n', text) {
        Some(last) => last + 1,
        None => 0,
    }
}

// The line without one CR at its end.
fn without_cr(line: &[u8]) -> &[u8]
    ensures { result.now ≡ without_cr line.now }
{
    match line {
        [front @ .., b'\r'] => front,
        _ => line,
    }
}

// The first line of the text, without its LF and one CR before it, and what follows.
pub fn next_line(text: &[u8]) -> (&[u8], &[u8])
    ensures line { result.0.now ≡ first_line text.now }
    ensures rest { result.1.now ≡ after_line text.now }
    ensures lines { 0 < length text.now → lines_of text.now ≡ result.0.now ∷ lines_of result.1.now }
    ensures fewer { 0 < length text.now → length result.1.now < length text.now }
{
    match memchr(b'\n', text) {
        Some(n) => (without_cr(&text[..n]), &text[n + 1..]),
        None => (without_cr(text), &[]),
    }
}

// Whether the line is passed over: it is empty or begins with `#`, blanks at its front aside.
pub fn is_passed_over(line: &[u8]) -> bool
    ensures { result ≡ passed_over line.now }
{
    matches!(blanks::after_blanks(line), [] | [b'#', ..])
}
