// Where an exact half goes: away from zero.
ghost use Rattle.std.specs.Prelude.{◌≡◌, ◌^◌, ◌<◌};
ghost use Rattle.rounding.specs.Halves.{from_half};

// The magnitude of q and a half.
#[tactic(auto, unfolding(crate::specs::Halves::from_half))]
pub fn from_half(q: u64) -> u64
    requires { q < 2 ^ 63 }
    ensures { result ≡ from_half q }
{
    q + 1
}
