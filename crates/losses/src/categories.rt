// What operation and maintenance cost in each category of resources: the built-in table.
ghost use Rattle.std.specs.Prelude.{◌≡◌, ◌≤◌};
ghost use Rattle.losses.specs.Categories.{category_cost as cost_in};

use crate::limits::LAST_CATEGORY;

// From the first category to the last, in cents per MWh.
const CATEGORY_COSTS: [u16; 12] = [315, 340, 372, 394, 405, 440, 468, 509, 545, 580, 616, 650];

// What they cost in one category, in cents per MWh.
#[tactic(auto, using(crate::specs::Bounds::category_small))]
pub(crate) fn category_cost(category: u8) -> u16
    requires first { 1 ≤ category }
    requires last { category ≤ LAST_CATEGORY }
    ensures value { result ≡ cost_in category }
    ensures small { result ≤ 650 }
{
    CATEGORY_COSTS[usize::from(category - 1)]
}
