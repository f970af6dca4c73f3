// SolutionSet4: up to four solutions.
ghost use Rattle.std.specs.Prelude.{◌≡◌, ◌<◌, ◌≤◌, length};
ghost use Rattle.solutionset.specs.SolutionSet4.{size, get_all, at, get_first, expect_one, expect_two, from_vec, map};

use array_vec::ArrayVec;

#[derive(Clone, Copy)]
pub enum SolutionSet4<T> {
    Zero,
    One(T),
    Two(T, T),
    Three(T, T, T),
    Four(T, T, T, T),
}

impl<T: Copy> SolutionSet4<T> {
    // The solution of a set of one.
    pub fn expect_one(self) -> T
        requires { size self ≡ 1 }
        ensures { (d : T) → result ≡ expect_one d self }
    {
        match self {
            SolutionSet4::One(s) => s,
            _ => unreachable!(),
        }
    }

    // The solutions of a set of two.
    pub fn expect_two(self) -> (T, T)
        requires { size self ≡ 2 }
        ensures { (d : T) → result ≡ expect_two d self }
    {
        match self {
            SolutionSet4::Two(s1, s2) => (s1, s2),
            _ => unreachable!(),
        }
    }

    // The first solution of a set that has any.
    pub fn get_first(self) -> T
        requires { 0 < size self }
        ensures { (d : T) → result ≡ get_first d self }
    {
        match self {
            SolutionSet4::Zero => unreachable!(),
            SolutionSet4::One(s) => s,
            SolutionSet4::Two(s, _) => s,
            SolutionSet4::Three(s, _, _) => s,
            SolutionSet4::Four(s, _, _, _) => s,
        }
    }

    // The solution with the number i.
    pub fn at(self, i: usize) -> T
        requires { i < size self }
        ensures { (d : T) → result ≡ at d self i }
    {
        match (self, i) {
            (SolutionSet4::One(s), _) => s,
            (SolutionSet4::Two(s, _), 0) => s,
            (SolutionSet4::Two(_, s), _) => s,
            (SolutionSet4::Three(s, _, _), 0) => s,
            (SolutionSet4::Three(_, s, _), 1) => s,
            (SolutionSet4::Three(_, _, s), _) => s,
            (SolutionSet4::Four(s, _, _, _), 0) => s,
            (SolutionSet4::Four(_, s, _, _), 1) => s,
            (SolutionSet4::Four(_, _, s, _), 2) => s,
            (SolutionSet4::Four(_, _, _, s), _) => s,
            _ => unreachable!(),
        }
    }

    pub fn size(self) -> usize
        ensures { result ≡ size self }
    {
        match self {
            SolutionSet4::Zero => 0,
            SolutionSet4::One(_) => 1,
            SolutionSet4::Two(_, _) => 2,
            SolutionSet4::Three(_, _, _) => 3,
            SolutionSet4::Four(_, _, _, _) => 4,
        }
    }

    // The set of what f gives of each solution.
    pub fn map<U, F: Fn(T) -> U + Drop>(self, f: F) -> SolutionSet4<U>
        requires { F.IsAlwaysCallable f }
        ensures { (g : T → U) → ((x : T) (y : U) → F.post f x y → y ≡ g x) → result ≡ map g self }
    {
        match self {
            SolutionSet4::Zero => SolutionSet4::Zero,
            SolutionSet4::One(s) => SolutionSet4::One(f(s)),
            SolutionSet4::Two(s1, s2) => SolutionSet4::Two(f(s1), f(s2)),
            SolutionSet4::Three(s1, s2, s3) => SolutionSet4::Three(f(s1), f(s2), f(s3)),
            SolutionSet4::Four(s1, s2, s3, s4) => SolutionSet4::Four(f(s1), f(s2), f(s3), f(s4)),
        }
    }

    // The set of a list: the Rust's from_vec.
    pub fn from_vec(list: &[T]) -> Self
        requires { length list.now ≤ 4 }
        ensures { result ≡ from_vec list.now }
    {
        match list {
            [] => SolutionSet4::Zero,
            [s] => SolutionSet4::One(*s),
            [s1, s2] => SolutionSet4::Two(*s1, *s2),
            [s1, s2, s3] => SolutionSet4::Three(*s1, *s2, *s3),
            [s1, s2, s3, s4, ..] => SolutionSet4::Four(*s1, *s2, *s3, *s4),
        }
    }
}

impl<T: Copy + Default> SolutionSet4<T> {
    // The solutions.
    pub fn get_all(self) -> ArrayVec<T, 4>
        ensures { result.items ≡ get_all self }
    {
        let mut all = ArrayVec::new();
        match self {
            SolutionSet4::Zero => {}
            SolutionSet4::One(s) => all.push(s),
            SolutionSet4::Two(s1, s2) => {
                all.push(s1);
                all.push(s2);
            }
            SolutionSet4::Three(s1, s2, s3) => {
                all.push(s1);
                all.push(s2);
                all.push(s3);
            }
            SolutionSet4::Four(s1, s2, s3, s4) => {
                all.push(s1);
                all.push(s2);
                all.push(s3);
                all.push(s4);
            }
        }
        all
    }
}
