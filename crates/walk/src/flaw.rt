// What keeps a source's lines from being settled.
ghost use Rattle.walk.specs.Flaws.{number_of, place_of};

use charges::fault::Fault;
use numbers::numbered::Numbered;

#[derive(Clone, Copy, PartialEq, Eq, Debug)]
pub enum Flaw {
    // there are more lines than a settlement takes
    ManyLines,
    // the line that was asked for is a fault, told whole
    Faulty { line: usize, fault: Fault },
    // the line's party is none of the parties, or its resource is not above that of the line before
    Unfit(usize),
}

impl Numbered for Flaw {
    ghost numbered = { number_of };

    ghost placed = { place_of };

    fn number(&self) -> u8 {
        match self {
            Flaw::ManyLines => 34,
            Flaw::Faulty { .. } => 35,
            Flaw::Unfit(_) => 36,
        }
    }

    // The line at fault, 0 for the whole source.
    fn place(&self) -> usize {
        match *self {
            Flaw::ManyLines => 0,
            Flaw::Faulty { line, .. } | Flaw::Unfit(line) => line,
        }
    }
}
