// Rows of tables that were used before: opening a book has to clear them.
use book::rows::{Entry, Slot};

pub(crate) const USED_SLOT: Slot = Slot { stands: true };

pub(crate) const USED_ENTRY: Entry = Entry {
    load: 9,
    paid: 9,
    charged: 9,
};
