// The lines of a text, each with its number and with the text from it on.
ghost use Rattle.std.specs.Iterator.{YieldsFirstBy, item_count};
ghost use Rattle.text.specs.Lines.{lines_of};

use text::lines::{is_passed_over, next_line};

// A line of a text.
#[derive(Clone, Copy)]
pub struct Line<'t> {
    // counted from 1
    pub number: u64,
    pub text: &'t [u8],
    // the text from the line's beginning on
    pub from: &'t [u8],
}

impl Line<'_> {
    // Whether the line holds no record.
    pub fn is_passed_over(&self) -> bool {
        is_passed_over(self.text)
    }
}

// The lines that are left.
#[derive(Clone, Copy)]
pub struct Lines<'t> {
    number: u64,
    left: &'t [u8],
}

impl<'t> Lines<'t> {
    // The lines of a text, whose first line has this number.
    pub fn numbered(number: u64, text: &'t [u8]) -> Lines<'t> {
        Lines { number, left: text }
    }
}

impl<'t> Iterator for Lines<'t> {
    type Item = Line<'t>;

    ghost next_gives = { YieldsFirstBy (λ line. line.text.now) (λ lines. lines_of lines.left.now) };

    ghost remaining = { item_count (λ lines. lines_of lines.left.now) };

    fn next(&mut self) -> Option<Line<'t>> {
        if self.left.is_empty() {
            return None;
        }
        let (text, left) = next_line(self.left);
        let line = Line {
            number: self.number,
            text,
            from: self.left,
        };
        self.number = self.number.saturating_add(1);
        self.left = left;
        Some(line)
    }
}
