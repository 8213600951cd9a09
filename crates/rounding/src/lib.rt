// Rounding to the nearest whole number, and nothing else.
#![tactic(auto)]

ghost use Rattle.std.specs.Prelude.{◌≡◌, ◌<◌};
ghost use Rattle.rounding.specs.Nearest.{nearest_magnitude, nearest_to, Nearest, Pinned, Lawful};

use numbers::with_sign;

mod halves;

// The nearest whole number to n / d.
#[tactic(auto, using(crate::proofs::Magnitudes::below, crate::proofs::Magnitudes::above, crate::proofs::Magnitudes::level))]
fn magnitude(n: u64, d: u64) -> u64
    requires { 0 < d }
    ensures { result ≡ nearest_magnitude n d }
{
    let whole = n / d;
    let over = n % d;
    let short = d - over;
    if over == short {
        return halves::from_half(whole);
    }
    whole + u64::from(over > short)
}

// The nearest whole number to n / d.
#[tactic(auto, using(crate::proofs::Magnitudes::magnitude_le, crate::proofs::Laws::nearest_is, crate::proofs::Laws::nearest_only), unfolding(crate::specs::Nearest::nearest_to))]
pub fn nearest(n: i64, d: u64) -> i64
    requires { 0 < d }
    ensures value { result ≡ nearest_to n d }
    ensures means { Nearest n d result }
    ensures only { Pinned n d result }
    ensures laws { Lawful n d result }
{
    with_sign(n, magnitude(n.unsigned_abs(), d))
}
