// A list of at most N values in fixed memory.
ghost use Rattle.std.specs.Prelude.{◌≤◌, List, take, length};

use std::alloc::AllocError;

// What alters values in place.
pub trait Change<T> {
    // whether it may leave values so, by what they were and what they are
    ghost leaves: { Self → List T → List T → Type 0 };

    fn change(self, values: &mut [T])
        ensures { leaves self values.old values.new };
}

// The first `len` slots hold the values; what the others hold counts for nothing.
#[derive(Copy)]
pub struct Bounded<T, const N: usize> {
    slots: [T; N],
    len: usize,
    ghost fits: { len ≤ N },
}

// Kept: tried, `Clone` is not derived for a generic struct with a ghost field.
impl<T: Copy, const N: usize> Clone for Bounded<T, N> {
    ghost use Rattle.std.specs.Prelude.{◌≡◌, ⊤};

    ghost is_clone = { λ held copy. copy ≡ held };

    ghost is_infallible = { λ _. ⊤ };

    fn clone(&self) -> Result<Self, AllocError> {
        Ok(*self)
    }
}

impl<T: Copy, const N: usize> Bounded<T, N> {
    ghost use Rattle.std.specs.Prelude.{◌≡◌, ◌≤◌, ◌<◌, ◌+◌, ◌∷◌, ◌++◌, [], length, cond, Some, None, nat_le, nat_lt, take};
    ghost use Rattle.std.specs.Option.{option_map};
    ghost use Rattle.base.specs.Bounded.{items};

    // No value yet; `blank` stands in every slot.
    pub fn empty(blank: T) -> Bounded<T, N>
        ensures { items result ≡ [] }
    {
        Bounded {
            slots: [blank; N],
            len: 0,
        }
    }

    // The values of a slice; none where they are more than N.
    pub fn from_slice(values: &[T], blank: T) -> Option<Bounded<T, N>>
        ensures { option_map items result ≡ cond (nat_le (length values.now) N) (Some values.now) None }
    {
        let mut kept = Bounded::empty(blank);
        kept.extend(values).then_some(kept)
    }

    // The values.
    pub fn as_slice(&self) -> &[T]
        ensures is { result.now ≡ items self.now }
        ensures fits { length result.now ≤ N }
    {
        &self.slots[..self.len]
    }

    // Whether N values are held.
    pub fn is_full(&self) -> bool
        ensures { result ≡ nat_le N (length (items self.now)) }
    {
        self.len == N
    }

    // Puts a value last; says whether it fits.
    pub fn push(&mut self, value: T) -> bool
        ensures fits { result ≡ nat_lt (length (items self.old)) N }
        ensures items { items self.new ≡ cond result (items self.old ++ value ∷ []) (items self.old) }
    {
        if self.is_full() {
            return false;
        }
        self.slots[self.len] = value;
        self.len += 1;
        true
    }

    // Puts values last, all of them or, where they do not fit, none. Says whether they fit.
    pub fn extend(&mut self, values: &[T]) -> bool
        ensures fits { result ≡ nat_le (length (items self.old) + length values.now) N }
        ensures items { items self.new ≡ cond result (items self.old ++ values.now) (items self.old) }
    {
        if values.len() > N - self.len {
            return false;
        }
        let end = self.len + values.len();
        let slots = &mut self.slots[..];
        slots[self.len..end].copy_from_slice(values);
        self.len = end;
        true
    }

    // Lends the values to a change, which may alter them in place.
    pub fn change<C: Change<T>>(&mut self, change: C)
        ensures { C.Change.leaves change (items self.old) (items self.new) }
    {
        change_front(&mut self.slots, self.len, change);
    }
}

// Lends the first `len` elements to a change.
fn change_front<T: Copy, C: Change<T>>(slots: &mut [T], len: usize, change: C)
    requires there { len ≤ length slots.old }
    ensures { C.Change.leaves change (take len slots.old) (take len slots.new) }
{
    change.change(&mut slots[..len]);
}
