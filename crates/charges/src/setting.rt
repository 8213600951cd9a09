// Why a setting is refused.
ghost use Rattle.charges.specs.Refusals.{number_of, place_of};

use numbers::numbered::Numbered;

#[derive(Clone, Copy, PartialEq, Eq, Debug)]
pub enum SettingRefusal {
    // the resource or the figure is outside its range
    Outside,
    // the table holds as many as it can, and this is a new one
    Full,
}

impl Numbered for SettingRefusal {
    ghost numbered = { number_of };

    ghost placed = { place_of };

    fn number(&self) -> u8 {
        match self {
            SettingRefusal::Outside => 46,
            SettingRefusal::Full => 45,
        }
    }

    // A setting has no place.
    fn place(&self) -> usize {
        match self {
            SettingRefusal::Outside | SettingRefusal::Full => 0,
        }
    }
}
