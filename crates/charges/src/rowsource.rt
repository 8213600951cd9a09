// A source of one line for each of the lent rows, of whatever kind.
ghost use Rattle.std.specs.Prelude.{◌≡◌};
ghost use Rattle.std.specs.Option.{option_copied};
ghost use Rattle.charges.specs.Rows.{numbered, basis_in, row_at};
ghost use Rattle.charges.specs.SourceLaws.{rows_sound};

use crate::fault::Fault;
use crate::interface::{BasisSource, LineSource};
use crate::reader::{BasisReader, Reader};

#[derive(Drop)]
pub struct RowSource<'a, R, T> {
    pub rows: &'a [R],
    pub reader: T,
}

impl<'a, R, T> RowSource<'a, R, T> {
    // Row n, counted from 1, if there is one.
    fn row(&self, n: usize) -> Option<&'a R>
        ensures { option_copied result ≡ row_at self.now.rows.now n }
    {
        let place = n.checked_sub(1)?;
        self.rows.get(place)
    }
}

impl<'a, R, T: Reader<R>> LineSource for RowSource<'a, R, T> {
    ghost lines = { λ s. numbered (T.Reader.line_of s.reader) 1 s.rows.now };

    ghost sound = { λ s. rows_sound (T.Reader.line_of s.reader) (T.Reader.ranged s.reader) s.rows.now };

    #[tactic(auto, using(crate::specs::SourceLaws::length_numbered))]
    fn count(&self) -> usize {
        self.rows.len()
    }

    #[tactic(auto, using(crate::specs::SourceLaws::at_numbered))]
    fn line(&self, n: usize) -> Result<(u16, u8, i64), Fault> {
        let row = self.row(n).ok_or(Fault::no_line(n))?;
        self.reader.read(n, row)
    }
}

impl<'a, R, T: BasisReader<R>> BasisSource for RowSource<'a, R, T> {
    ghost basis_of = { λ s n. basis_in (T.BasisReader.basis_by s.reader) s.rows.now n };

    #[tactic(auto, using(crate::specs::SourceLaws::at_numbered))]
    fn basis(&self, n: usize) -> u32 {
        // Kept: a match, since a closure that asks the reader would need both of its promises written out again.
        match self.row(n) {
            Some(row) => self.reader.rest(n, row),
            None => 0,
        }
    }
}
