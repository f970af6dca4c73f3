// Family 6: two_parallel of inverse_kinematics/mod.rs. Its answers are kept as the search's pairs (q1, i),
// and each is made from its pair when it is read, so that all are known before one is written.
#![tactic(auto)]

ghost use Rattle.std.specs.Prelude.{◌≡◌, ◌<◌};
ghost use Rattle.search_error.specs.Error.{t64_count};
ghost use Rattle.family6_answers.specs.Pairs.{pair};
ghost use Rattle.family6.specs.TwoParallel.{answer_of};
ghost use Rattle.family6.specs.Kept.{Kept};

use answers::Answer;
use kinematics::Kinematics;
use linear::{Matrix3, Vector3};
use search_error::Fixed;
use search_pairs::LentPairs;
pub use search_pairs::PairList;

// The pairs of an arm and a pose by a search over n + 1 samples, in a list with room for 17,600: 44 * 400,
// the most that there can be. An n above 400 is not searched: no answer, no evaluation.
pub fn two_parallel(
    r_06: Matrix3,
    p_0t: Vector3,
    kin: Kinematics,
    n: usize,
    list: &mut PairList<17600>,
)
    ensures { Kept r_06 p_0t kin n list.new }
{
    let mut lent = LentPairs::new(&mut list.angles, &mut list.components);
    search::search_1d_bracketed(&Fixed::new(kin, r_06, p_0t), n, &mut lent);
    let (pairs, evals) = (lent.pairs, lent.evals);
    list.pairs = pairs;
    list.evals = evals;
}

// The answer of the pair (q1, i). What does not depend on q1 is computed anew for each answer: beside the
// search that found the pair it is nothing.
pub fn answer_of(
    r_06: Matrix3,
    p_0t: Vector3,
    kin: Kinematics,
    tolerance: f64,
    q1: f64,
    i: usize,
) -> Answer
    requires { i < t64_count kin r_06 p_0t q1 }
    ensures { result ≡ answer_of r_06 p_0t kin tolerance (pair q1 i) }
{
    family6_answers::answer_at(&Fixed::new(kin, r_06, p_0t), tolerance, q1, i)
}
