// The worked figures of all formulas, under one result.
#![tactic(auto)]

ghost use Rattle.std.specs.Prelude.{◌≡◌, pos, negsuc, Ok};
ghost use Rattle.figures.specs.Worked.{Worked};

use assess::refusals::Refusal;
use desk::figures::{thirds_leftover, thirds_running};

// The balances of three parties.
pub type Balances = (i128, i128, i128);

// The worked figures follow from the definitions; and a book that settles one line of -100 for the first of three equal loads
// answers the balances -67, 33, 34 by running and -66, 33, 33 by leftover.
pub fn figures_stand() -> Result<(Balances, Balances), Refusal>
    ensures worked { Worked }
    ensures balances { result ≡ Ok ((negsuc 66, pos 33, pos 34), (negsuc 65, pos 33, pos 33)) }
{
    curves::figures::figures_stand();
    emergency::figures::figures_stand();
    losses::figures::figures_stand();
    sites::figures::figures_stand();
    sharing::figures::figures_stand();
    let running = thirds_running(7)?;
    let leftover = thirds_leftover(7)?;
    Ok((running, leftover))
}
