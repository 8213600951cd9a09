// The denial layer: the amounts of the resources that it denies are 0.
ghost use Rattle.std.specs.Prelude.{◌≡◌, pos, is_some};
ghost use Rattle.numbers.specs.Checks.{Unambiguous};
ghost use Rattle.charges.specs.Denial.{denied_entry, denied_lines};
ghost use Rattle.charges.specs.LayerLaws.{denied_sound};
ghost use Rattle.charges.specs.Settings.{held_by, nothing, size_of, checks, WasSet, WasRemoved, KeptOnRefusal};

use crate::fault::Fault;
use crate::interface::{BasisSource, LineSource};
use crate::setting::SettingRefusal;
use crate::table::Table;

#[derive(Drop)]
pub struct Denial<S> {
    pub below: S,
    table: Table,
}

// The entry as the layer passes it on.
fn pass(table: &Table, entry: (u16, u8, i64)) -> (u16, u8, i64)
    ensures { result ≡ denied_entry (held_by table.now) entry }
{
    let (resource, party, amount) = entry;
    let passed = if table.holds(resource) { 0 } else { amount };
    (resource, party, passed)
}

impl<S: LineSource> Denial<S> {
    // A layer over a source that denies no resource.
    pub fn over(below: S) -> Self
        ensures below { result.below ≡ below }
        ensures none { held_by result.table ≡ nothing }
        ensures size { size_of result.table ≡ 0 }
    {
        Denial {
            below,
            table: Table::new(),
        }
    }

    // The same denials over another source.
    pub fn onto<T: LineSource>(&self, below: T) -> Denial<T>
        ensures below { result.below ≡ below }
        ensures table { result.table ≡ self.now.table }
    {
        Denial {
            below,
            table: self.table,
        }
    }

    // Whether the resource is denied.
    pub fn denies(&self, resource: u16) -> bool
        ensures { result ≡ is_some (held_by self.now.table resource) }
    {
        self.table.holds(resource)
    }

    // Denies a resource.
    pub fn deny(&mut self, resource: u16) -> Result<(), SettingRefusal>
        ensures table { WasSet self.old.table self.new.table resource (pos 0) result }
        ensures below { self.new.below ≡ self.old.below }
        ensures kept { KeptOnRefusal result self.old self.new }
        ensures once { Unambiguous (checks self.old.table resource (pos 0)) }
    {
        self.table.set(resource, 0)
    }

    // Denies it no more.
    pub fn undeny(&mut self, resource: u16)
        ensures table { WasRemoved self.old.table self.new.table resource }
        ensures below { self.new.below ≡ self.old.below }
    {
        self.table.remove(resource);
    }
}

// Kept: what the layers pass on alike is one line each, which one generic layer would make no plainer.
impl<S: LineSource> LineSource for Denial<S> {
    ghost lines = { λ s. denied_lines (held_by s.table) (S.LineSource.lines s.below) };

    ghost sound = { λ s. denied_sound (held_by s.table) (S.LineSource.lines s.below) (S.LineSource.sound s.below) };

    #[tactic(auto, using(crate::specs::SourceLaws::length_numbered))]
    fn count(&self) -> usize {
        self.below.count()
    }

    #[tactic(auto, using(crate::specs::SourceLaws::line_at_layered))]
    fn line(&self, n: usize) -> Result<(u16, u8, i64), Fault> {
        let entry = self.below.line(n)?;
        Ok(pass(&self.table, entry))
    }
}

impl<S: BasisSource> BasisSource for Denial<S> {
    ghost basis_of = { λ s n. S.BasisSource.basis_of s.below n };

    fn basis(&self, n: usize) -> u32 {
        self.below.basis(n)
    }
}
