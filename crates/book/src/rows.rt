// The rows of the two tables that a book is kept in, and what is told of one.
ghost use Rattle.std.specs.Prelude.{◌≡◌};
ghost use Rattle.book.specs.Model.{told_of};

// A slot: one charge type in one interval.
#[derive(Clone, Copy, PartialEq, Eq, Debug, Default)]
pub struct Slot {
    pub stands: bool,
}

// What a slot keeps for one party: kWh, and cents.
#[derive(Clone, Copy, PartialEq, Eq, Debug, Default)]
pub struct Entry {
    pub load: u32,
    pub paid: i64,
    pub charged: i64,
}

// Whether a slot stands, and one party's entries in it, zeros where it does not.
// Kept: a mark beside the three entries, since a book answers entries of a slot that does not stand too.
#[derive(Clone, Copy, PartialEq, Eq, Debug, Default)]
pub struct Told {
    pub stands: bool,
    pub load: u32,
    pub paid: i64,
    pub charged: i64,
}

impl From<Entry> for Told {
    ghost from_gives = { λ e r. r ≡ told_of e };

    // Of a slot that stands.
    fn from(entry: Entry) -> Told {
        Told {
            stands: true,
            load: entry.load,
            paid: entry.paid,
            charged: entry.charged,
        }
    }
}
