// An array of which the first entries are filled, one behind the other. It can be copied, and needs no heap.
#![tactic(auto)]

ghost use Rattle.std.specs.Prelude.{◌≤◌};

use std::alloc::AllocError;

// The items, and how many of the first entries are filled. What the other entries hold is no item.
// Kept: no plainer, this is the one array with its count: the kit's ArrayVec says nothing of the entries behind the count, which `network` and `build` promise to be zeros.
pub struct Filled<T, const N: usize> {
    pub items: [T; N],
    pub count: usize,
    pub ghost within: { count ≤ N },
}

// Kept: interface, the check gives no derive for a generic struct with a ghost field.
impl<T: Copy, const N: usize> Clone for Filled<T, N> {
    ghost use Rattle.std.specs.Prelude.{◌≡◌, ⊤};

    ghost is_clone = { λ old copy. copy ≡ old };

    ghost is_infallible = { λ _. ⊤ };

    // A copy.
    fn clone(&self) -> Result<Filled<T, N>, AllocError> {
        Ok(*self)
    }
}

impl<T: Copy, const N: usize> Copy for Filled<T, N> {}

impl<T: Copy, const N: usize> Filled<T, N> {
    ghost use Rattle.std.specs.Prelude.{◌≡◌, take};
    ghost use Rattle.filled.specs.Filling.{NoneFilled, Pushed};

    // no entry is filled; each holds this.
    pub fn none(blank: T) -> Filled<T, N>
        ensures { NoneFilled blank result }
    {
        Filled {
            items: [blank; N],
            count: 0,
        }
    }

    // The items, in their order.
    pub fn as_slice(&self) -> &[T]
        ensures { result.now ≡ take self.now.count self.now.items }
    {
        &self.items[..self.count]
    }

    // Puts an item behind the others; one without room is left out.
    pub fn push(&mut self, item: T)
        ensures { Pushed self.old item self.new }
    {
        if self.count < N {
            self.items[self.count] = item;
            self.count += 1;
        }
    }
}
