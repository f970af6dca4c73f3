// A list of at most N that lies in the value itself, over the standard library alone: an array and how many
// of its places are taken. Places that are not hold a default value.
#![tactic(auto)]

ghost use Rattle.std.specs.Prelude.{◌≡◌, ◌+◌, ◌<◌, ◌≤◌, ◌==◌, [], ◌∷◌, ◌++◌, length, take, drop, reverse};
ghost use Rattle.array_vec.specs.ArrayVec.{array_vec_len};

use std::marker::Model;
use std::ops::DerefSlice;

#[derive(Clone, Copy)]
pub struct ArrayVec<T, const N: usize> {
    places: [T; N],
    len: usize,
}

impl<T, const N: usize> Model for ArrayVec<T, N> {
    ghost use Rattle.std.specs.Prelude.{◌≡◌, ◌≤◌, ◌++◌, length, take, drop};
    ghost use Rattle.std.proofs.Common.{arith, take-append-drop, length-take-le};
    ghost use Rattle.array_vec.specs.ArrayVec.{ArrayVec as Held};

    ghost Value = { Held T };

    ghost view = { λ v. record { items = take v.len v.places; spare = drop v.len v.places } };

    ghost invariant = { λ v. (v.len ≤ N) × (length v.places ≡ N) };

    ghost inverse = { λ v. record { places = v.items ++ v.spare; len = length v.items } };

    ghost inverse_ok = { λ v h i. record {
      places = take-append-drop v.len v.places i;
      len = length-take-le v.len v.places (omega (arith, h.0, h.1)) i;
    } };
}

// (Of slices, since what a loan of some places of an array leaves is known of a slice alone.)
fn reverse_first<T: Copy>(places: &mut [T], n: usize)
    requires { n ≤ length places.old }
    ensures { places.new ≡ reverse (take n places.old) ++ drop n places.old }
{
    places[..n].reverse();
}

fn put_at<T: Copy>(places: &mut [T], at: usize, more: &[T])
    requires { at + length more.now ≤ length places.old }
    ensures front { take (at + length more.now) places.new ≡ take at places.old ++ more.now }
    ensures len { length places.new ≡ length places.old }
{
    places[at..at + more.len()].copy_from_slice(more);
}

impl<T: Copy + Default, const N: usize> ArrayVec<T, N> {
    pub fn new() -> Self
        ensures { result.items ≡ [] }
    {
        ArrayVec {
            places: [T::default(); N],
            len: 0,
        }
    }
}

impl<T: Copy, const N: usize> ArrayVec<T, N> {
    pub fn len(&self) -> usize
        ensures value { result ≡ array_vec_len self.now }
        ensures fits { result ≤ N }
    {
        self.as_slice().len()
    }

    pub fn is_full(&self) -> bool
        ensures value { result ≡ (array_vec_len self.now == N) }
        ensures fits { array_vec_len self.now ≤ N }
    {
        self.len == N
    }

    pub fn as_slice(&self) -> &[T]
        ensures value { result.now ≡ self.now.items }
        ensures fits { length result.now ≤ N }
    {
        &self.places[..self.len]
    }

    pub fn clear(&mut self)
        ensures { self.new.items ≡ [] }
    {
        self.len = 0;
    }

    // To the end.
    pub fn push(&mut self, item: T)
        requires { array_vec_len self.old < N }
        ensures items { self.new.items ≡ self.old.items ++ item ∷ [] }
        ensures len { array_vec_len self.new ≡ array_vec_len self.old + 1 }
    {
        self.places[self.len] = item;
        self.len += 1;
    }

    pub fn reverse(&mut self)
        ensures items { self.new.items ≡ reverse self.old.items }
        ensures len { array_vec_len self.new ≡ array_vec_len self.old }
    {
        reverse_first(&mut self.places, self.len);
    }

    // To the end, one after the other.
    pub fn extend_from_slice(&mut self, more: &[T])
        requires { array_vec_len self.old + length more.now ≤ N }
        ensures items { self.new.items ≡ self.old.items ++ more.now }
        ensures len { array_vec_len self.new ≡ array_vec_len self.old + length more.now }
    {
        put_at(&mut self.places, self.len, more);
        self.len += more.len();
    }
}

impl<T: Copy, const N: usize> DerefSlice for ArrayVec<T, N> {
    type Elem = T;

    ghost deref_gives = { λ v xs. (xs ≡ v.items) × (length xs ≤ N) };

    fn deref(&self) -> &[T] {
        self.as_slice()
    }
}

// Every place is taken.
impl<T: Copy, const N: usize> From<[T; N]> for ArrayVec<T, N> {
    ghost from_gives = { λ array v. (v.items ≡ array) × (array_vec_len v ≡ N) };

    fn from(array: [T; N]) -> Self {
        ArrayVec {
            places: array,
            len: N,
        }
    }
}
