// What every charge source answers. A question alters nothing, and its answer is the meaning's each time.
ghost use Rattle.std.specs.Prelude.{◌≡◌, ℕ, List, length};
ghost use Rattle.charges.specs.Lines.{Line, line_at, Sound, Based};

use crate::fault::Fault;

// A list of lines, counted from 1.
pub trait LineSource {
    ghost lines: { Self → List Line };

    ghost sound: { (s : Self) → Sound (lines s) };

    // How many lines there are.
    fn count(&self) -> usize
        ensures { result ≡ length (lines self.now) };

    // Line n: resource, party and amount, or a fault.
    fn line(&self, n: usize) -> Result<(u16, u8, i64), Fault>
        ensures { result ≡ line_at (lines self.now) n };
}

// A source that also tells the kWh that each line rests on.
pub trait BasisSource: LineSource {
    ghost basis_of: { Self → ℕ → ℕ };

    // The basis of line n.
    fn basis(&self, n: usize) -> u32
        ensures value { result ≡ basis_of self.now n }
        ensures based { Based (line_at (Self.LineSource.lines self.now) n) result };
}
