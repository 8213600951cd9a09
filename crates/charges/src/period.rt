// The period layer: when it is closed, every amount is 0.
ghost use Rattle.std.specs.Prelude.{◌≡◌};
ghost use Rattle.charges.specs.Period.{period_entry, period_lines};
ghost use Rattle.charges.specs.LayerLaws.{period_sound};

use crate::fault::Fault;
use crate::interface::{BasisSource, LineSource};

#[derive(Clone, Copy, PartialEq, Eq, Debug)]
pub enum State {
    Open,
    Closed,
}

#[derive(Drop)]
pub struct Period<S> {
    pub below: S,
    pub state: State,
}

impl State {
    // The entry as the period passes it on.
    fn pass(self, entry: (u16, u8, i64)) -> (u16, u8, i64)
        ensures { result ≡ period_entry self entry }
    {
        let (resource, party, amount) = entry;
        match self {
            State::Open => (resource, party, amount),
            State::Closed => (resource, party, 0),
        }
    }
}

impl<S: LineSource> Period<S> {
    // A period over a source.
    pub fn over(below: S, state: State) -> Self
        ensures below { result.below ≡ below }
        ensures state { result.state ≡ state }
    {
        Period { below, state }
    }
}

// Kept: what the layers pass on alike is one line each; one generic layer would rename a period's field `state`, and ask of each layer
// the same map and law.
impl<S: LineSource> LineSource for Period<S> {
    ghost lines = { λ s. period_lines s.state (S.LineSource.lines s.below) };

    ghost sound = { λ s. period_sound s.state (S.LineSource.lines s.below) (S.LineSource.sound s.below) };

    #[tactic(auto, using(crate::specs::SourceLaws::length_numbered))]
    fn count(&self) -> usize {
        self.below.count()
    }

    #[tactic(auto, using(crate::specs::SourceLaws::line_at_layered))]
    fn line(&self, n: usize) -> Result<(u16, u8, i64), Fault> {
        let entry = self.below.line(n)?;
        Ok(self.state.pass(entry))
    }
}

impl<S: BasisSource> BasisSource for Period<S> {
    ghost basis_of = { λ s n. S.BasisSource.basis_of s.below n };

    fn basis(&self, n: usize) -> u32 {
        self.below.basis(n)
    }
}
