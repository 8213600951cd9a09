// The lines of a settlement, and its charges.
ghost use Rattle.std.specs.Prelude.{◌≡◌, ℕ, ◌-◌, ◌<◌, ◌≤◌, length, pos, neg_ℤ, IfOk, if◌then◌else◌, sum, OnOk, nat_lt, slice_index_or, unsigned_abs};
ghost use Rattle.std.specs.List.{AllByRecursion};
ghost use Rattle.std.specs.Result.{IfErr};
ghost use Rattle.walk.specs.Totals.{total_of, sum_for};
ghost use Rattle.law.specs.Settlements.{Among};
ghost use Rattle.law.specs.Steps.{first};
ghost use Rattle.assess.specs.Refusals.{raised, NamesParty};
ghost use Rattle.assess.specs.Halves.{line_checks};

use crate::checks::{check_covered, check_total};
use crate::limits::{MOST_LOAD, MOST_PARTIES, MOST_TOTAL};
use crate::refusals::{Refusal, SlotFlaw};
use charges::interface::LineSource;
use sharing::loads::total_load;
use sharing::rule::{SharingRule, share_out};
use walk::tally::walk;

// T, the total of all amounts, and the total load.
#[derive(Clone, Copy, PartialEq, Eq, Debug)]
pub struct Totals {
    pub total: i64,
    pub load: u64,
}

// The checks on the lines, in the table's order. Accepted, it answers T and the total load, and `paid` holds what each
// party is paid; what lies past the parties stays.
// Kept: the slot by its two numbers, since the caller may ask for one that no book has, and is told of a flaw in it.
pub fn work_out<S: LineSource>(
    parties: usize,
    charge_type: u8,
    interval: usize,
    loads: &[u32],
    source: &S,
    paid: &mut [i64],
) -> Result<Totals, Refusal>
    requires few { length loads.now ≤ MOST_PARTIES }
    requires room { parties ≤ length paid.old }
    ensures checks { raised result ≡ first (line_checks parties charge_type interval loads.now (S.LineSource.lines source.now)) }
    ensures party { IfErr result NamesParty }
    ensures sums { IfOk result (λ x. (x.total ≡ total_of (S.LineSource.lines source.now)) × (x.load ≡ sum loads.now)) }
    ensures paid { OnOk result ((p : ℕ) → Among p parties → slice_index_or paid.new (p - 1) (pos 0) ≡ sum_for p (S.LineSource.lines source.now)) }
    ensures rest { (k : ℕ) → parties ≤ k → slice_index_or paid.new k (pos 0) ≡ slice_index_or paid.old k (pos 0) }
{
    let total = walk(source, &mut paid[..parties]).map_err(|flaw| SlotFlaw {
        charge_type,
        interval,
        flaw,
    })?;
    check_total(total)?;
    let load = total_load(loads);
    check_covered(load, total)?;
    Ok(Totals { total, load })
}

impl Totals {
    // Each party's charge: its share of -total, and 0 with no load; what lies past the parties stays.
    pub fn charge<R: SharingRule>(self, rule: &R, loads: &[u32], charged: &mut [i64])
        requires summed { self.load ≡ sum loads.now }
        requires within { unsigned_abs self.total ≤ MOST_TOTAL }
        requires few { length loads.now ≤ MOST_PARTIES }
        requires small { AllByRecursion (λ l. l ≤ MOST_LOAD) loads.now }
        requires room { length loads.now ≤ length charged.old }
        ensures share { (k : ℕ) → k < length loads.now → slice_index_or charged.new k (pos 0) ≡ (if nat_lt 0 (sum loads.now) then slice_index_or (R.SharingRule.meaning rule.now (neg_ℤ self.total) loads.now) k (pos 0) else pos 0) }
        ensures rest { (k : ℕ) → length loads.now ≤ k → slice_index_or charged.new k (pos 0) ≡ slice_index_or charged.old k (pos 0) }
    {
        let charges = &mut charged[..loads.len()];
        if self.load == 0 {
            charges.fill(0);
            return;
        }
        share_out(rule, -self.total, loads, charges);
    }
}
