// Sums of loads.
ghost use Rattle.std.specs.Prelude.{◌≡◌, ◌^◌, ◌≤◌, length, sum};

// The sum of the loads.
pub fn total_load(loads: &[u32]) -> u64
    requires { length loads.now ≤ 2 ^ 32 }
    ensures { result ≡ sum loads.now }
{
    let mut all = 0;
    for load in loads {
        all += u64::from(*load);
    }
    all
}
