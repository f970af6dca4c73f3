// SolutionSet2: up to two solutions.
ghost use Rattle.std.specs.Prelude.{◌≡◌, ◌<◌, ◌≤◌, length};
ghost use Rattle.solutionset.specs.SolutionSet2.{size, get_all, at, get_first, expect_one, expect_two, duplicated, from_vec};

use array_vec::ArrayVec;

#[derive(Clone, Copy)]
pub enum SolutionSet2<T> {
    Zero,
    One(T),
    Two(T, T),
}

impl<T: Copy> SolutionSet2<T> {
    // The solution of a set of one.
    pub fn expect_one(self) -> T
        requires { size self ≡ 1 }
        ensures { (d : T) → result ≡ expect_one d self }
    {
        match self {
            SolutionSet2::One(s) => s,
            _ => unreachable!(),
        }
    }

    // The solutions of a set of two.
    pub fn expect_two(self) -> (T, T)
        requires { size self ≡ 2 }
        ensures { (d : T) → result ≡ expect_two d self }
    {
        match self {
            SolutionSet2::Two(s1, s2) => (s1, s2),
            _ => unreachable!(),
        }
    }

    // The first solution of a set that has any.
    pub fn get_first(self) -> T
        requires { 0 < size self }
        ensures { (d : T) → result ≡ get_first d self }
    {
        match self {
            SolutionSet2::Zero => unreachable!(),
            SolutionSet2::One(s) => s,
            SolutionSet2::Two(s, _) => s,
        }
    }

    // The solution with the number i.
    pub fn at(self, i: usize) -> T
        requires { i < size self }
        ensures { (d : T) → result ≡ at d self i }
    {
        match (self, i) {
            (SolutionSet2::One(s), _) => s,
            (SolutionSet2::Two(s, _), 0) => s,
            (SolutionSet2::Two(_, s), _) => s,
            _ => unreachable!(),
        }
    }

    // One solution stands twice.
    pub fn duplicated(self) -> Self
        ensures { result ≡ duplicated self }
    {
        match self {
            SolutionSet2::One(s) => SolutionSet2::Two(s, s),
            other => other,
        }
    }

    pub fn size(self) -> usize
        ensures { result ≡ size self }
    {
        match self {
            SolutionSet2::Zero => 0,
            SolutionSet2::One(_) => 1,
            SolutionSet2::Two(_, _) => 2,
        }
    }

    // The set of a list: the Rust's from_vec.
    pub fn from_vec(list: &[T]) -> Self
        requires { length list.now ≤ 2 }
        ensures { result ≡ from_vec list.now }
    {
        match list {
            [] => SolutionSet2::Zero,
            [s] => SolutionSet2::One(*s),
            [s1, s2, ..] => SolutionSet2::Two(*s1, *s2),
        }
    }
}

impl<T: Copy + Default> SolutionSet2<T> {
    // The solutions.
    pub fn get_all(self) -> ArrayVec<T, 2>
        ensures { result.items ≡ get_all self }
    {
        let mut all = ArrayVec::new();
        match self {
            SolutionSet2::Zero => {}
            SolutionSet2::One(s) => all.push(s),
            SolutionSet2::Two(s1, s2) => {
                all.push(s1);
                all.push(s2);
            }
        }
        all
    }
}
