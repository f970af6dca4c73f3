// How values of several kinds stand among plain numbers.
ghost use Rattle.std.specs.Prelude.{◌≡◌, ◌+◌, ◌*◌, ◌≤◌, Float, List, [], ◌∷◌, length};

use array_vec::ArrayVec;
use complex::Complex;
use float::SinCos;
use linear::Vector3;
use polynomial::{Matrix2, Vector2, Vector5};
use qr::Vector4;
use solutionset::{Pair, Triple};
use subproblems::Solved1;

// A value that is N numbers.
pub(crate) trait Row<const N: usize>: Copy {
    ghost parts: { Self → List Float };

    fn of(numbers: [f64; N]) -> Self;

    fn numbers(self) -> [f64; N]
        ensures { result ≡ parts self };
}

impl Row<1> for f64 {
    ghost parts = { λ x. x ∷ [] };

    fn of(numbers: [f64; 1]) -> Self {
        let [x] = numbers;
        x
    }

    fn numbers(self) -> [f64; 1] {
        [self]
    }
}

impl Row<2> for Vector2 {
    ghost parts = { λ v. v.x ∷ v.y ∷ [] };

    fn of(numbers: [f64; 2]) -> Self {
        let [x, y] = numbers;
        Vector2 { x, y }
    }

    fn numbers(self) -> [f64; 2] {
        [self.x, self.y]
    }
}

impl Row<3> for Vector3 {
    ghost parts = { λ v. v.x ∷ v.y ∷ v.z ∷ [] };

    fn of(numbers: [f64; 3]) -> Self {
        let [x, y, z] = numbers;
        Vector3 { x, y, z }
    }

    fn numbers(self) -> [f64; 3] {
        [self.x, self.y, self.z]
    }
}

impl Row<4> for Vector4 {
    ghost parts = { λ v. v.x ∷ v.y ∷ v.z ∷ v.w ∷ [] };

    fn of(numbers: [f64; 4]) -> Self {
        let [x, y, z, w] = numbers;
        Vector4 { x, y, z, w }
    }

    fn numbers(self) -> [f64; 4] {
        [self.x, self.y, self.z, self.w]
    }
}

impl Row<5> for Vector5 {
    ghost parts = { λ v. v.a ∷ v.b ∷ v.c ∷ v.d ∷ v.e ∷ [] };

    fn of(numbers: [f64; 5]) -> Self {
        let [a, b, c, d, e] = numbers;
        Vector5 { a, b, c, d, e }
    }

    fn numbers(self) -> [f64; 5] {
        [self.a, self.b, self.c, self.d, self.e]
    }
}

// By rows.
impl Row<4> for Matrix2 {
    ghost parts = { λ m. m.m00 ∷ m.m01 ∷ m.m10 ∷ m.m11 ∷ [] };

    fn of(numbers: [f64; 4]) -> Self {
        let [m00, m01, m10, m11] = numbers;
        Matrix2 { m00, m01, m10, m11 }
    }

    fn numbers(self) -> [f64; 4] {
        [self.m00, self.m01, self.m10, self.m11]
    }
}

impl Row<2> for Complex {
    ghost parts = { λ z. z.re ∷ z.im ∷ [] };

    fn of(numbers: [f64; 2]) -> Self {
        let [re, im] = numbers;
        Complex { re, im }
    }

    fn numbers(self) -> [f64; 2] {
        [self.re, self.im]
    }
}

impl Row<2> for SinCos {
    ghost parts = { λ p. p.sin ∷ p.cos ∷ [] };

    fn of(numbers: [f64; 2]) -> Self {
        let [sin, cos] = numbers;
        SinCos { sin, cos }
    }

    fn numbers(self) -> [f64; 2] {
        [self.sin, self.cos]
    }
}

impl Row<2> for Pair {
    ghost parts = { λ p. p.first ∷ p.second ∷ [] };

    fn of(numbers: [f64; 2]) -> Self {
        let [first, second] = numbers;
        Pair { first, second }
    }

    fn numbers(self) -> [f64; 2] {
        [self.first, self.second]
    }
}

impl Row<3> for Triple {
    ghost parts = { λ t. t.first ∷ t.second ∷ t.third ∷ [] };

    fn of(numbers: [f64; 3]) -> Self {
        let [first, second, third] = numbers;
        Triple {
            first,
            second,
            third,
        }
    }

    fn numbers(self) -> [f64; 3] {
        [self.first, self.second, self.third]
    }
}

// The value from argument i on.
pub(crate) fn at<T: Row<N>, const N: usize>(args: &[f64; 40], i: usize) -> T
    requires { i + N ≤ 40 }
{
    T::of(args[i..i + N].try_into().unwrap())
}

// Numbers as the words from i on.
pub(crate) fn put_numbers(out: &mut [u64; 23], i: usize, numbers: &[f64])
    requires { i + length numbers.now ≤ 23 }
{
    for (word, x) in out[i..].iter_mut().zip(numbers) {
        *word = cases::pattern(*x);
    }
}

pub(crate) fn put<T: Row<N>, const N: usize>(out: &mut [u64; 23], i: usize, x: T)
    requires { i + N ≤ 23 }
{
    put_numbers(out, i, &x.numbers());
}

// A list: its count, and all its slots, with zeros in those that are not used.
pub(crate) fn put_list<T: Row<N>, const N: usize, const M: usize>(
    out: &mut [u64; 23],
    list: &ArrayVec<T, M>,
)
    requires { (M * N + 1 ≤ 23) × (N ≤ 22) }
{
    let mut slots = [[0.0; N]; M];
    for (slot, x) in slots.iter_mut().zip(list.iter()) {
        *slot = x.numbers();
    }
    out[0] = list.len() as u64;
    put_numbers(out, 1, slots.as_flattened());
}

pub(crate) fn put_solved1<T: Row<N>, const N: usize>(out: &mut [u64; 23], s: Solved1<T>)
    requires { N + 1 ≤ 23 }
{
    put(out, 0, s.theta);
    out[N] = u64::from(s.is_ls);
}

// The list of a `Solved2<T>`, and its flag after the slots. (The caller makes the list: that `get_all` has room
// in memory for it is known of each T there is, and not of a T of any size.)
pub(crate) fn put_solved2<T: Row<N>, const N: usize, const M: usize>(
    out: &mut [u64; 23],
    list: &ArrayVec<T, M>,
    is_ls: bool,
)
    requires { (M * N + 2 ≤ 23) × (N ≤ 22) }
{
    put_list(out, list);
    out[M * N + 1] = u64::from(is_ls);
}
