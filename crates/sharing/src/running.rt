// The running rule.
ghost use Rattle.sharing.specs.Running.{running as running_shares};
ghost use Rattle.sharing.specs.RunningLaws.{running_fair};

use crate::loads::total_load;
use crate::rule::SharingRule;
use numbers::with_sign;

// A share is what the loads up to and with this one come to, less the same without this one.
#[derive(Clone, Copy, PartialEq, Eq, Debug, Default)]
pub struct Running;

impl SharingRule for Running {
    ghost meaning = { λ _ total loads. running_shares total loads };

    ghost fair = { λ _ total loads asked. running_fair total loads asked };

    fn share(&self, total: i64, loads: &[u32], shares: &mut [i64]) {
        let magnitude = total.unsigned_abs();
        let all = total_load(loads);
        let mut before = 0;
        let mut given = 0;
        // Kept: a share is written by its place, since what a zip over the shares has written is not known after it.
        for (place, load) in loads.iter().enumerate() {
            before += u64::from(*load);
            let up_to = magnitude * before / all;
            shares[place] = with_sign(total, up_to - given);
            given = up_to;
        }
    }
}
