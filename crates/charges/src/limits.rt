// The limits of charges.

// The last resource's number; the first is 1.
pub const LAST_RESOURCE: u16 = 9_999;

// The most cents that a line may hold, either way.
pub const MOST_CENTS: u64 = 3_000_000_000;

// The most cents that a layer's figure may have, either way.
pub const MOST_FIGURE: u64 = 1_000_000_000;

// The most resources that a layer holds.
pub const PLACES: usize = 32;

// The most lines that a settlement takes.
pub const MOST_LINES: usize = 256;
