// The adjustment layer: it subtracts a resource's figure from its amounts.
ghost use Rattle.std.specs.Prelude.{◌≡◌, ◌≤◌, unsigned_abs};
ghost use Rattle.numbers.specs.Checks.{Unambiguous};
ghost use Rattle.charges.specs.Adjustment.{adjusted_entry, adjusted_lines, answer_of, fault_from};
ghost use Rattle.charges.specs.LayerLaws.{adjusted_sound};
ghost use Rattle.charges.specs.Layers.{resting};
ghost use Rattle.charges.specs.Lines.{line_at};
ghost use Rattle.charges.specs.Settings.{held_by, figure_in, nothing, size_of, checks, WasSet, WasRemoved, KeptOnRefusal};
ghost use Rattle.charges.specs.declared.adjustment.AdjustFault.TheVariants.{Passed};

use crate::fault::{Cause, Fault, Layer};
use crate::interface::{BasisSource, LineSource};
use crate::limits::MOST_CENTS;
use crate::setting::SettingRefusal;
use crate::table::Table;

#[derive(Drop)]
pub struct Adjustment<S> {
    pub below: S,
    table: Table,
}

// What is wrong with an adjusted line: a fault from below, whole, or the line's adjusted amount is out of range.
#[derive(Clone, Copy, PartialEq, Eq, Debug)]
pub enum AdjustFault {
    Passed(Fault),
    Beyond(usize),
}

impl From<Fault> for AdjustFault {
    ghost from_gives = { λ f r. r ≡ Passed f };

    fn from(fault: Fault) -> AdjustFault {
        AdjustFault::Passed(fault)
    }
}

impl From<AdjustFault> for Fault {
    ghost from_gives = { λ a r. r ≡ fault_from a };

    fn from(fault: AdjustFault) -> Fault {
        match fault {
            AdjustFault::Passed(below) => below,
            AdjustFault::Beyond(line) => Fault {
                cause: Cause::AdjustedBeyond,
                line,
                field: 0,
                layer: Layer::Adjustment,
            },
        }
    }
}

// The entry with the figure subtracted, if that is in range.
fn adjust(table: &Table, n: usize, entry: (u16, u8, i64)) -> Result<(u16, u8, i64), AdjustFault>
    requires { unsigned_abs entry.2 ≤ MOST_CENTS }
    ensures { result ≡ adjusted_entry (held_by table.now) n entry }
{
    let (resource, party, amount) = entry;
    let adjusted = amount - table.figure(resource);
    if adjusted.unsigned_abs() > MOST_CENTS {
        return Err(AdjustFault::Beyond(n));
    }
    Ok((resource, party, adjusted))
}

impl<S: LineSource> Adjustment<S> {
    // A layer over a source with no figure set.
    pub fn over(below: S) -> Self
        ensures below { result.below ≡ below }
        ensures none { held_by result.table ≡ nothing }
        ensures size { size_of result.table ≡ 0 }
    {
        Adjustment {
            below,
            table: Table::new(),
        }
    }

    // The same figures over another source.
    pub fn onto<T: LineSource>(&self, below: T) -> Adjustment<T>
        ensures below { result.below ≡ below }
        ensures table { result.table ≡ self.now.table }
    {
        Adjustment {
            below,
            table: self.table,
        }
    }

    // The resource's figure, 0 if none is set.
    pub fn figure(&self, resource: u16) -> i64
        ensures { result ≡ figure_in (held_by self.now.table) resource }
    {
        self.table.figure(resource)
    }

    // Sets a resource's figure, in place of the one it had.
    pub fn set(&mut self, resource: u16, figure: i64) -> Result<(), SettingRefusal>
        ensures table { WasSet self.old.table self.new.table resource figure result }
        ensures below { self.new.below ≡ self.old.below }
        ensures kept { KeptOnRefusal result self.old self.new }
        ensures once { Unambiguous (checks self.old.table resource figure) }
    {
        self.table.set(resource, figure)
    }

    // Removes a resource's figure, which frees its place.
    pub fn remove(&mut self, resource: u16)
        ensures table { WasRemoved self.old.table self.new.table resource }
        ensures below { self.new.below ≡ self.old.below }
    {
        self.table.remove(resource);
    }

    // Line n, adjusted.
    #[tactic(auto, using(crate::specs::SourceLaws::line_at_layered))]
    fn adjusted(&self, n: usize) -> Result<(u16, u8, i64), AdjustFault>
        ensures { answer_of result ≡ line_at (adjusted_lines (held_by self.now.table) (S.LineSource.lines self.now.below)) n }
    {
        let entry = self.below.line(n)?;
        adjust(&self.table, n, entry)
    }
}

// Kept: what the layers pass on alike is one line each, which one generic layer would make no plainer.
impl<S: LineSource> LineSource for Adjustment<S> {
    ghost lines = { λ s. adjusted_lines (held_by s.table) (S.LineSource.lines s.below) };

    ghost sound = { λ s. adjusted_sound (held_by s.table) (S.LineSource.lines s.below) (S.LineSource.sound s.below) };

    #[tactic(auto, using(crate::specs::SourceLaws::length_numbered))]
    fn count(&self) -> usize {
        self.below.count()
    }

    fn line(&self, n: usize) -> Result<(u16, u8, i64), Fault> {
        Ok(self.adjusted(n)?)
    }
}

impl<S: BasisSource> BasisSource for Adjustment<S> {
    ghost basis_of = { λ s n. resting (line_at (adjusted_lines (held_by s.table) (S.LineSource.lines s.below)) n) (S.BasisSource.basis_of s.below n) };

    fn basis(&self, n: usize) -> u32 {
        self.adjusted(n).map_or(0, |_| self.below.basis(n))
    }
}
