// A slice of the quarter hour with its base point priced, and what it comes to on either side of zero.
ghost use Rattle.std.specs.Prelude.{◌≡◌, pos, ◌*ℤ◌};
ghost use Rattle.emergency.specs.Energy.{lies, at_least as at_least_on, power as power_on};
ghost use Rattle.emergency.specs.Weights.{weight_of, Limited};

use numbers::weighed;

#[derive(Clone, Copy, PartialEq, Eq, Debug)]
pub struct Slice {
    pub seconds: u16,
    pub base: i32,
    pub price: i32,
}

// Base points above zero discharge, those below zero charge.
#[derive(Clone, Copy, PartialEq, Eq, Debug)]
pub enum Side {
    Above,
    Below,
}

impl Slice {
    // Whether the base point lies on this side.
    pub(crate) fn is_on(&self, side: Side) -> bool
        ensures { result ≡ lies side self.now }
    {
        match side {
            Side::Above => self.base > 0,
            Side::Below => self.base < 0,
        }
    }

    // max(least, BP), or min(−least, BP).
    fn at_least(&self, side: Side, least: u8) -> i32
        ensures { result ≡ at_least_on least side self.now }
    {
        match side {
            Side::Above => self.base.max(i32::from(least)),
            Side::Below => self.base.min(-i32::from(least)),
        }
    }

    // How much the price counts, by magnitude.
    pub(crate) fn weight(&self, side: Side) -> u32
        requires { Limited self.now }
        ensures { result ≡ weight_of side self.now }
    {
        self.at_least(side, 1).unsigned_abs() * u32::from(self.seconds)
    }

    // The price by its weight.
    pub(crate) fn weighed_price(&self, side: Side) -> i64
        requires { Limited self.now }
        ensures { result ≡ self.now.price *ℤ pos (weight_of side self.now) }
    {
        weighed(self.price, self.weight(side))
    }

    // The power as long as it lasts.
    pub(crate) fn work(&self, side: Side) -> i64
        ensures { result ≡ power_on side self.now *ℤ pos self.now.seconds }
    {
        weighed(self.at_least(side, 0), u32::from(self.seconds))
    }
}
