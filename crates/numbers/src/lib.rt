// Whole numbers as the settlement uses them: products that fit, magnitudes with a sign, and what is told by a number. Nothing here
// rounds.
#![tactic(auto)]

ghost use Rattle.std.specs.Prelude.{◌≡◌, ◌≤◌, pos, ◌*ℤ◌, unsigned_abs};
ghost use Rattle.numbers.specs.Signs.{signed_by};

pub mod numbered;

// The magnitude m with the sign of z.
// Kept: casts, which are proved to fit; `try_from` would add a branch that cannot be taken.
pub fn with_sign(z: i64, m: u64) -> i64
    requires { m ≤ unsigned_abs z }
    ensures { result ≡ signed_by z m }
{
    if z < 0 && m > 0 {
        -((m - 1) as i64) - 1
    } else {
        m as i64
    }
}

// The product of two numbers that are not too large.
pub fn product(a: i64, b: i64) -> i64
    requires left { unsigned_abs a ≤ 2000000000 }
    requires right { unsigned_abs b ≤ 2000000000 }
    ensures { result ≡ a *ℤ b }
{
    a * b
}

// A figure as often as it counts.
pub fn weighed(figure: i32, weight: u32) -> i64
    ensures { result ≡ figure *ℤ pos weight }
{
    i64::from(figure) * i64::from(weight)
}
