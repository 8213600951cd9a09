// Readings as the library's types hold them. What a type cannot hold becomes its end value, which lies outside every
// limit, so that the library refuses it by number and place.
ghost use Rattle.std.specs.Prelude.{◌≡◌, min};
ghost use Rattle.day.specs.Held.{held_signed, held_natural};

use text::numbers::Number;

// A type of the library that holds a reading.
// Kept: a body for each type, since each is one call of the library, and the value at the end differs.
pub trait Held: Sized {
    // What the reading is read as.
    type Reading: Number;

    // The value that stands for a reading.
    ghost held: { Self.Reading → Self };

    fn held(reading: Self::Reading) -> Self
        ensures { result ≡ held reading };
}

// A signed number of 32 bits; beyond them the nearer end.
impl Held for i32 {
    type Reading = i64;

    ghost held = { held_signed };

    fn held(reading: i64) -> i32 {
        i32::try_from(reading).unwrap_or(if reading < 0 { i32::MIN } else { i32::MAX })
    }
}

// A number of 32 bits without a sign; any other becomes the largest.
impl Held for u32 {
    type Reading = i64;

    ghost held = { held_natural };

    fn held(reading: i64) -> u32 {
        u32::try_from(reading).unwrap_or(u32::MAX)
    }
}

// A number of 16 bits; a larger one becomes the largest.
impl Held for u16 {
    type Reading = u32;

    ghost held = { λ reading. min reading 65535 };

    fn held(reading: u32) -> u16 {
        u16::try_from(reading).unwrap_or(u16::MAX)
    }
}

// A number of 8 bits; a larger one becomes the largest.
impl Held for u8 {
    type Reading = u32;

    ghost held = { λ reading. min reading 255 };

    fn held(reading: u32) -> u8 {
        u8::try_from(reading).unwrap_or(u8::MAX)
    }
}
