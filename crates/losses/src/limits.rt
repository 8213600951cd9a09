// The limits of a row's fields.

// The least settlement point price, in cents per MWh.
pub const LEAST_PRICE: i32 = -100_000;

// The greatest settlement point price, in cents per MWh.
pub const MOST_PRICE: i32 = 1_000_000;

// The most that is generated in a quarter hour, in kWh.
pub const MOST_GENERATION: u32 = 500_000;

// The least heat rate, in thousandths of MMBtu per MWh.
pub const LEAST_HEAT_RATE: u32 = 1_000;

// The greatest heat rate, in thousandths of MMBtu per MWh.
pub const MOST_HEAT_RATE: u32 = 50_000;

// The greatest fuel price, in cents per MMBtu.
pub const MOST_FUEL_PRICE: i32 = 100_000;

// The most that charging costs, in cents per MWh.
pub const MOST_CHARGING_COST: i32 = 1_000_000;

// The most that a resource's own operation and maintenance cost, in cents per MWh.
pub const MOST_OWN_COST: i32 = 10_000;

// The last category; the first is 1.
pub const LAST_CATEGORY: u8 = 12;

// The most fuel that is burned in a quarter hour, in thousandths of MMBtu.
pub const MOST_BURNED: u32 = 1_000_000_000;

// The greatest cap, in cents per MWh.
pub const MOST_CAP: i32 = 1_000_000;
