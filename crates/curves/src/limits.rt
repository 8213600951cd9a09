// The limits of offer curves.

// how many points a row has room for
pub const MOST_SUBMITTED: usize = 10;

// how many points a completed curve has at most: three more
pub const MOST_POINTS: usize = 13;

// how far a power is from 0 at most, in kW
pub const MOST_POWER: i32 = 2_000_000;

// the least price, in cents per MWh
pub const LEAST_PRICE: i32 = -25_000;

// the greatest price, in cents per MWh
pub const MOST_PRICE: i32 = 1_000_000;
