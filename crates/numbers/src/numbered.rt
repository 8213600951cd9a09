// What is told by a number and a place, as every refusal is.
ghost use Rattle.std.specs.Prelude.{◌≡◌, ℕ};

// A refusal: its number says why, and its place which is the first offender.
pub trait Numbered {
    ghost numbered: { Self → ℕ };

    ghost placed: { Self → ℕ };

    // Its number in the table of refusals.
    fn number(&self) -> u8
        ensures { result ≡ numbered self.now };

    // The place of the first offender, counted from 1, or 0 where it has none.
    // Kept: a number, since refusals are told by two numbers.
    fn place(&self) -> usize
        ensures { result ≡ placed self.now };
}
