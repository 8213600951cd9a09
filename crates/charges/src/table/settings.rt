// What a table holds, and how that is changed.
ghost use Rattle.std.specs.Prelude.{◌≡◌, ◌≤◌, is_some, IfSome, position, Decides, unsigned_abs, ◌==◌};
ghost use Rattle.std.specs.List.{list_any};
ghost use Rattle.charges.specs.Table.{has_resource, is_free, figure_at, place_for};
ghost use Rattle.charges.specs.Refusals.{InRange};
ghost use Rattle.charges.specs.Settings.{held_by, figure_in, nothing, size_of, WasSet, WasRemoved};

use crate::figure::Figure;
use crate::limits::{LAST_RESOURCE, MOST_FIGURE, PLACES};
use crate::setting::SettingRefusal;
use crate::table::Table;

// Whether a resource and a figure may be set.
fn is_in_range(resource: u16, figure: i64) -> bool
    ensures { Decides result (InRange resource figure) }
{
    (1..=LAST_RESOURCE).contains(&resource) && figure.unsigned_abs() <= MOST_FIGURE
}

// Whether the resource is among the numbers. All of them are looked at, so that many are compared at once.
fn is_among(numbers: &[u16; PLACES], resource: u16) -> bool
    ensures { result ≡ list_any (λ n. n == resource) numbers.now }
{
    let mut found = false;
    for number in numbers {
        found |= *number == resource;
    }
    found
}

// Where the resource stands first among the numbers, if it does.
fn place_among(numbers: &[u16; PLACES], resource: u16) -> Option<usize>
    ensures { result ≡ position (λ n. n == resource) numbers.now }
{
    numbers.iter().position(|number| *number == resource)
}

impl Table {
    // A table that holds nothing.
    pub(crate) fn new() -> Self
        ensures none { held_by result ≡ nothing }
        ensures size { size_of result ≡ 0 }
    {
        Table {
            rows: [None; PLACES],
            numbers: [0; PLACES],
            end: 0,
        }
    }

    // The place that holds the resource, if one does.
    fn place(&self, resource: u16) -> Option<usize>
        ensures { result ≡ position (has_resource resource) self.now.rows }
    {
        if self.end == 0 || resource == 0 {
            return None;
        }
        place_among(&self.numbers, resource)
    }

    // The first free place, if there is one.
    fn free_place(&self) -> Option<usize>
        ensures { result ≡ position is_free self.now.rows }
    {
        self.rows.iter().position(Option::is_none)
    }

    // The place where a resource is to be held: its own, or else a free one.
    fn place_for(&self, resource: u16) -> Option<usize>
        ensures { result ≡ place_for self.now.rows resource }
    {
        self.place(resource).or_else(|| self.free_place())
    }

    // What is held for the resource, if it is held.
    fn held(&self, resource: u16) -> Option<Figure>
        ensures figure { figure_at result ≡ held_by self.now resource }
        ensures small { IfSome result (λ held. unsigned_abs held.figure ≤ MOST_FIGURE) }
    {
        let place = self.place(resource)?;
        self.rows[place]
    }

    // The figure of the resource, or 0.
    pub(crate) fn figure(&self, resource: u16) -> i64
        ensures value { result ≡ figure_in (held_by self.now) resource }
        ensures small { unsigned_abs result ≤ MOST_FIGURE }
    {
        self.held(resource).map_or(0, |held| held.figure)
    }

    // Whether the resource is held.
    pub(crate) fn holds(&self, resource: u16) -> bool
        ensures { result ≡ is_some (held_by self.now resource) }
    {
        if self.end == 0 || resource == 0 {
            return false;
        }
        is_among(&self.numbers, resource)
    }

    // Holds a figure for the resource, in place of the one it had.
    pub(crate) fn set(&mut self, resource: u16, figure: i64) -> Result<(), SettingRefusal>
        ensures { WasSet self.old self.new resource figure result }
    {
        if !is_in_range(resource, figure) {
            return Err(SettingRefusal::Outside);
        }
        let place = self.place_for(resource).ok_or(SettingRefusal::Full)?;
        self.rows[place] = Some(Figure { resource, figure });
        self.numbers[place] = resource;
        self.end = self.end.max(place + 1);
        Ok(())
    }

    // Holds the resource no more.
    pub(crate) fn remove(&mut self, resource: u16)
        ensures { WasRemoved self.old self.new resource }
    {
        if let Some(place) = self.place(resource) {
            self.rows[place] = None;
            self.numbers[place] = 0;
            if place + 1 == self.end {
                self.end = place;
            }
        }
    }
}
