// How one row becomes one line.
ghost use Rattle.std.specs.Prelude.{◌≡◌, ℕ};
ghost use Rattle.charges.specs.Lines.{Line, Ranged, Based};

use crate::fault::Fault;

pub trait Reader<R> {
    ghost line_of: { Self → ℕ → R → Line };

    ghost ranged: { (s : Self) (n : ℕ) (row : R) → Ranged (line_of s n row) };

    // The row as line n.
    fn read(&self, n: usize, row: &R) -> Result<(u16, u8, i64), Fault>
        ensures { result ≡ line_of self.now n row.now };
}

// A reader that also tells the kWh that the row rests on.
pub trait BasisReader<R>: Reader<R> {
    ghost basis_by: { Self → ℕ → R → ℕ };

    // The row's basis as line n.
    fn rest(&self, n: usize, row: &R) -> u32
        ensures value { result ≡ basis_by self.now n row.now }
        ensures based { Based (Self.Reader.line_of self.now n row.now) result };
}
