// A directory of records of any kind that has a key.
ghost use Rattle.std.specs.Prelude.{◌≡◌, []};
ghost use Rattle.numbers.specs.Checks.{Checked, Unambiguous};
ghost use Rattle.directory.specs.Kinds.{Rising, Found};
ghost use Rattle.directory.specs.Refusals.{number_of, place_of, count_check, form_check, order_check, checks, Opened};

use crate::keyed::Keyed;
use numbers::numbered::Numbered;
use std::alloc::AllocError;
use std::cmp::Ordering;

// Records in strictly rising key order.
pub struct Directory<'a, R: Keyed> {
    records: &'a [R],
    ghost rises: { Rising R.Keyed.kind records.now },
}

// A copy asks nothing of the records, which are lent.
// Kept: no copy can be derived for a generic struct that carries a fact.
impl<'a, R: Keyed> Clone for Directory<'a, R> {
    ghost is_clone = { λ directory copy. copy ≡ directory };

    ghost is_infallible = { λ _. Unit };

    fn clone(&self) -> Result<Self, AllocError> {
        Ok(*self)
    }
}

impl<'a, R: Keyed> Copy for Directory<'a, R> {}

// Why a list of records is refused, with the place of the first offender, counted from 1.
#[derive(Clone, Copy, PartialEq, Eq, Debug)]
pub enum DirectoryRefusal {
    Count,
    IllFormed(usize),
    NotRising(usize),
}

impl Numbered for DirectoryRefusal {
    ghost numbered = { number_of };

    ghost placed = { place_of };

    fn number(&self) -> u8 {
        match self {
            DirectoryRefusal::Count => 13,
            DirectoryRefusal::IllFormed(_) => 11,
            DirectoryRefusal::NotRising(_) => 12,
        }
    }

    fn place(&self) -> usize {
        match self {
            DirectoryRefusal::Count => 0,
            DirectoryRefusal::IllFormed(place) | DirectoryRefusal::NotRising(place) => *place,
        }
    }
}

// There are records, and not too many.
fn counted<R: Keyed>(records: &[R]) -> Result<(), DirectoryRefusal>
    ensures { Checked number_of place_of (count_check R.Keyed.kind records.now) result }
{
    if records.is_empty() || records.len() > R::most() {
        return Err(DirectoryRefusal::Count);
    }
    Ok(())
}

// Each record is well-formed.
fn well_formed<R: Keyed>(records: &[R]) -> Result<(), DirectoryRefusal>
    ensures { Checked number_of place_of (form_check R.Keyed.kind records.now) result }
{
    if let Some(before) = records.iter().position(|record| !record.is_formed()) {
        return Err(DirectoryRefusal::IllFormed(before + 1));
    }
    Ok(())
}

// Each key is above the one before.
fn in_order<R: Keyed>(records: &[R]) -> Result<(), DirectoryRefusal>
    ensures { Checked number_of place_of (order_check R.Keyed.kind records.now) result }
{
    let not_rising = |pair: &[R]| !R::compare(&pair[0].key(), &pair[1].key()).is_lt();
    if let Some(before) = records.windows(2).position(not_rising) {
        return Err(DirectoryRefusal::NotRising(before + 2));
    }
    Ok(())
}

impl<'a, R: Keyed> Directory<'a, R> {
    // The directory of these records.
    #[tactic(auto, using(numbers::proofs::Checks::one_answer))]
    pub fn of(records: &'a [R]) -> Result<Directory<'a, R>, DirectoryRefusal>
        ensures answer { Opened R.Keyed.kind records.now (λ d. d.records.now) result }
        ensures one { Unambiguous (checks R.Keyed.kind records.now) }
    {
        counted(records)?;
        well_formed(records)?;
        in_order(records)?;
        Ok(Directory { records })
    }

    // The directory that no record stands in: every look-up finds none.
    pub fn empty() -> Directory<'a, R>
        ensures { result.records.now ≡ [] }
    {
        Directory { records: &[] }
    }

    // The records.
    pub fn records(&self) -> &'a [R]
        ensures { result.now ≡ self.now.records.now }
    {
        self.records
    }

    // The same directory: its keys rise, as those of every directory do.
    pub fn rising(self) -> Directory<'a, R>
        ensures rises { Rising R.Keyed.kind result.records.now }
        ensures same { Rising R.Keyed.kind self.entry.records.now → result.records.now ≡ self.entry.records.now }
        ensures none { (Rising R.Keyed.kind self.entry.records.now → ⊥) → result.records.now ≡ [] }
    {
        self
    }

    // The place of the record with this key, counted from 1, or none where no record has it.
    // Kept: a loop, which ends where it meets the record; `binary_search_by` goes on until one record is left.
    pub fn find(&self, key: &R::Key) -> Option<usize>
        ensures { Found R.Keyed.kind self.now.records.now (R.Keyed.sense key.now) result }
    {
        let mut rest = self.records;
        let mut before = 0;
        while let Some(middle) = rest.get(rest.len() / 2) {
            let half = rest.len() / 2;
            let at = before + half;
            match R::compare(&middle.key(), key) {
                Ordering::Equal => return Some(at + 1),
                Ordering::Less => {
                    rest = &rest[half + 1..];
                    before = at + 1;
                }
                Ordering::Greater => rest = &rest[..half],
            }
        }
        None
    }
}
