// The limits of a book, and of what is settled in it.

// The most parties that a book has; the first is 1.
pub const MOST_PARTIES: usize = 64;

// The most intervals that a book has; the first is 1.
pub const MOST_INTERVALS: usize = 100;

// The most kWh that a party's load may be.
pub const MOST_LOAD: u32 = 20_000_000;

// The most cents that the total of a source's amounts may be, either way.
pub const MOST_TOTAL: u64 = 5_000_000_000;
