// What a sharing rule is, and the one function through which everything is shared.
ghost use Rattle.std.specs.Prelude.{◌≡◌, ℕ, List, length, ℤ};
ghost use Rattle.sharing.specs.Rules.{Asked, Fair};

// A way to share a total over loads.
pub trait SharingRule {
    // the shares that the rule means, for each total and list of loads
    ghost meaning: { Self → ℤ → List ℕ → List ℤ };

    // the proof that it keeps the laws
    ghost fair: { (rule : Self) (total : ℤ) (loads : List ℕ) → Asked total loads → Fair total loads (meaning rule total loads) };

    // Writes the shares.
    fn share(&self, total: i64, loads: &[u32], shares: &mut [i64])
        requires asked { Asked total loads.now }
        requires room { length shares.old ≡ length loads.now }
        ensures { shares.new ≡ meaning self.now total loads.now };
}

// Shares a total by any rule: what is written is what the rule means, and keeps the laws.
pub fn share_out<R: SharingRule>(rule: &R, total: i64, loads: &[u32], shares: &mut [i64])
    requires asked { Asked total loads.now }
    requires room { length shares.old ≡ length loads.now }
    ensures means { shares.new ≡ R.SharingRule.meaning rule.now total loads.now }
    ensures fair { Fair total loads.now shares.new }
{
    rule.share(total, loads, shares);
}
