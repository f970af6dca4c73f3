// What the families share: the arm with its axes normalised once, rotations about them, p_16, and
// answers appended to answers.
#![tactic(auto)]

mod arm;

ghost use Rattle.std.specs.Prelude.{◌≡◌, ◌+◌, ◌≤◌, ◌++◌};
ghost use Rattle.array_vec.specs.ArrayVec.{array_vec_len};
ghost use Rattle.linear.specs.Matrix.{product};
ghost use Rattle.families_shared.specs.Place.{p_16};

use answers::Answer;
pub use arm::{Arm, Axis};
use array_vec::ArrayVec;
use kinematics::Kinematics;
use linear::{Matrix3, Vector3};

// The place that the first joints of families 3 to 6 have to reach. The pose and the arm are the Rust's
// three parameters r_06, p_0t and kin here and in each family, since the definitions name them so.
#[tactic(auto, unfolding(crate::specs::Place::p_16))]
pub fn p_16(r_06: Matrix3, p_0t: Vector3, kin: Kinematics) -> Vector3
    ensures { result ≡ p_16 r_06 p_0t kin }
{
    p_0t - kin.p0 - linear::apply(r_06, kin.p6)
}

// a * b * c * d, from the left.
pub fn product4(a: Matrix3, b: Matrix3, c: Matrix3, d: Matrix3) -> Matrix3
    ensures { result ≡ product (product (product a b) c) d }
{
    linear::product(linear::product(linear::product(a, b), c), d)
}

// Appends answers, for which the caller has kept room. Each family gathers in a loop of its own, since
// one function for all, of a closure that gives M answers at each of N values, would return a list with
// room for N * M, and a type's const argument cannot be a product of two parameters.
pub fn append<const N: usize, const M: usize>(
    all: &mut ArrayVec<Answer, N>,
    more: &ArrayVec<Answer, M>,
)
    requires { array_vec_len all.old + array_vec_len more.now ≤ N }
    ensures { all.new.items ≡ all.old.items ++ more.now.items }
{
    all.extend_from_slice(more.as_slice());
}
