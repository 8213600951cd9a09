// Records that have a key.
ghost use Rattle.std.specs.Prelude.{◌≡◌};
ghost use Rattle.directory.specs.Kinds.{Kind};

use std::cmp::Ordering;

// A record with a key. Two values of the key's type that mean the same are one key.
pub trait Keyed {
    type Key: Drop;

    // What keys mean.
    ghost Sense: { Type 0 };

    ghost sense: { Self.Key → Sense };

    // How such records are kept: their keys and the order of these, which are well-formed, and how many there may be.
    ghost kind: { Kind Self Sense };

    // The record's key.
    fn key(&self) -> Self::Key
        ensures { sense result ≡ kind.key_of self.now };

    // How two keys stand in the order.
    // Kept: a bound `Ord` on the key in place of this would ask more of implementors, a type that is ordered, and so in one way only.
    fn compare(left: &Self::Key, right: &Self::Key) -> Ordering
        ensures { result ≡ kind.order.cmp (sense left.now) (sense right.now) };

    // Whether the record is well-formed.
    fn is_formed(&self) -> bool
        ensures { result ≡ kind.formed self.now };

    // How many records a directory may have.
    fn most() -> usize
        ensures { result ≡ kind.most };
}
