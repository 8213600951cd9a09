// A firm's own charge source: a fee for standing by, for a run of resources that no row lists, all paid to one party.
ghost use Rattle.std.specs.Prelude.{◌≡◌, ◌≤◌};
ghost use Rattle.charges.specs.Rows.{lines_by};
ghost use Rattle.charges.specs.SourceLaws.{made_sound};
ghost use Rattle.outside.specs.Standby.{fee_line, fee_ranged};

use charges::fault::{Cause, Fault};
use charges::interface::LineSource;
use charges::limits::{LAST_RESOURCE, MOST_CENTS};
use numbers::weighed;

#[derive(Clone, Copy, PartialEq, Eq, Debug)]
pub struct Standby {
    // the number of the first resource; the others follow on
    pub first: u16,
    pub count: u16,
    pub party: u8,
    // in cents per MW, negative when the party receives it
    pub rate: i32,
    // in MW, of each resource
    pub power: u32,
}

impl Standby {
    // Line n of a source that has it.
    fn fee(&self, n: usize) -> Result<(u16, u8, i64), Fault>
        requires first { 1 ≤ n }
        requires last { n ≤ 65535 }
        ensures { result ≡ fee_line self.now n }
    {
        let resource = usize::from(self.first) + (n - 1);
        if !(1..=usize::from(LAST_RESOURCE)).contains(&resource) {
            return Err(Fault::in_source(Cause::Own(90), n, 1));
        }
        let amount = weighed(self.rate, self.power);
        if amount.unsigned_abs() > MOST_CENTS {
            return Err(Fault::in_source(Cause::AmountBeyond, n, 0));
        }
        // Kept: a cast, which is proved to fit; `try_from` would add a branch that cannot be taken.
        Ok((resource as u16, self.party, amount))
    }
}

impl LineSource for Standby {
    ghost lines = { λ s. lines_by (fee_line s) s.count };

    ghost sound = { λ s. made_sound (fee_line s) s.count (fee_ranged s) };

    fn count(&self) -> usize {
        usize::from(self.count)
    }

    fn line(&self, n: usize) -> Result<(u16, u8, i64), Fault> {
        if !(1..=usize::from(self.count)).contains(&n) {
            return Err(Fault::no_line(n));
        }
        self.fee(n)
    }
}
