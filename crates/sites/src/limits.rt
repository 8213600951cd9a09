// The limits of sites.

// how many buses, and how many units, a site has at most
pub const MOST_BUSES: usize = 8;

pub const MOST_UNITS: usize = 8;

// how far an energy is from 0 at most, in kWh
pub const MOST_ENERGY: i32 = 10_000;

// the least and the greatest price of a slice, in cents per MWh
pub const LEAST_PRICE: i32 = -100_000;

pub const MOST_PRICE: i32 = 1_000_000;

// the greatest adder, in cents per MWh; the least is 0
pub const MOST_ADDER: i32 = 1_000_000;

// the greatest telemetry reading
pub const MOST_READING: u32 = 500_000;

// a bus price is no lower, in cents per MWh
pub const LEAST_BUS_PRICE: i64 = -25_100;
