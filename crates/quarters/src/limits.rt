// The limits of quarter hours.

// how many slices there are at most
pub const MOST_SLICES: usize = 15;

// how many seconds a quarter hour lasts
pub const SECONDS: u16 = 900;
