// How a list is filled and read.
ghost use Rattle.std.specs.Prelude.{◌≡◌, ℕ, ◌+◌, ◌<◌, ◌≤◌, [], ◌∷◌, ◌++◌, length};
ghost use Rattle.bounded.specs.Items.{items_of};

use crate::list::BoundedList;

impl<T: Copy, const N: usize> BoundedList<T, N> {
    // A list of no items; `filler` lies in the places that are free.
    pub fn new(filler: T) -> Self
        ensures { items_of result ≡ [] }
    {
        BoundedList {
            slots: [filler; N],
            count: 0,
        }
    }

    // The items.
    pub fn as_slice(&self) -> &[T]
        ensures { result.now ≡ items_of self.now }
    {
        &self.slots[..self.count]
    }

    // Puts an item behind the others.
    pub fn push(&mut self, item: T)
        requires { length (items_of self.old) < N }
        ensures { items_of self.new ≡ items_of self.old ++ item ∷ [] }
    {
        self.slots[self.count] = item;
        self.count += 1;
    }

    // Puts items behind the others.
    pub fn extend_from_slice(&mut self, items: &[T])
        requires { length (items_of self.old) + length items.now ≤ N }
        ensures { items_of self.new ≡ items_of self.old ++ items.now }
    {
        let start = self.count;
        let end = start + items.len();
        let slots = &mut self.slots[..];
        slots[start..end].copy_from_slice(items);
        self.count = end;
    }
}
