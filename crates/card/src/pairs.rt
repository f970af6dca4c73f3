// The pairs of a search, before its answers are read from them.
ghost use Rattle.std.specs.Prelude.{◌≡◌, true, ◌≤◌, length};
ghost use Rattle.search_error.specs.Error.{t64_count};
ghost use Rattle.answers.specs.Written.{room, written, flagged};
ghost use Rattle.refusals.specs.Judge.{refusal_9};
ghost use Rattle.solve.specs.InNumbers.{in_numbers};
ghost use Rattle.card.specs.Usable.{answered, usable, pair_answers};

use full_list::{FullList, Pairs, Task};
use kinematics::Kinematics;
use limits::Limits;
use linear::{Matrix3, Vector3};
use refusals::Family;
use search_error::Fixed;
use solve::Solved;

// The number of subproblem 6's answers at q1.
fn t64_count(r_06: Matrix3, p_0t: Vector3, kin: Kinematics, q1: f64) -> usize
    ensures { result ≡ t64_count kin r_06 p_0t q1 }
{
    let fixed = Fixed::new(kin, r_06, p_0t);
    let t64 = fixed.t64(&fixed.given_q1(q1));
    t64.size()
}

// Whether subproblem 6 has answer i at q1.
fn answered(arm: &[f64; 39], pose: &[f64; 12], q1: f64, i: u8) -> bool
    ensures { result ≡ answered arm.now pose.now q1 i }
{
    let kin = kinematics::from_numbers(arm);
    let r = kinematics::pose_rotation(pose);
    let p = kinematics::pose_place(pose);
    (i as usize) < t64_count(r, p, kin, q1)
}

// Whether subproblem 6 has the answer of each of the first pairs: of a search's own pairs it has, but memory
// may have been written over.
pub fn usable(arm: &[f64; 39], pose: &[f64; 12], qs: &[f64], cs: &[u8], pairs: usize) -> bool
    requires { (pairs ≤ length qs.now) × (pairs ≤ length cs.now) }
    ensures { result ≡ usable arm.now pose.now qs.now cs.now pairs }
{
    (0..pairs).all(|k| answered(arm, pose, qs[k], cs[k]))
}

// What a search that is over gives: the answers of its pairs go to the two lists. (The pairs lie in two lists of
// memory that a caller in C lends.)
pub fn finish(
    arm: &[f64; 39],
    pose: &[f64; 12],
    qs: &[f64],
    cs: &[u8],
    pairs: usize,
    evals: u64,
    angles: &mut [f64],
    flags: &mut [u8],
) -> Solved
    requires { (pairs ≤ 17600) × (pairs ≤ length qs.now) × (pairs ≤ length cs.now) × (usable arm.now pose.now qs.now cs.now pairs ≡ true) }
    ensures result { in_numbers result ≡ record { refusal = refusal_9 pairs (room angles.old flags.old); answers = pairs; evals = evals } }
    ensures angles { angles.new ≡ written (pair_answers arm.now pose.now qs.now cs.now pairs) angles.old flags.old }
    ensures flags { flags.new ≡ flagged (pair_answers arm.now pose.now qs.now cs.now pairs) angles.old flags.old }
{
    let sixes = angles.len() / 6;
    let bytes = flags.len();
    let task = Task::new(Family::TwoParallel, 0, arm, pose);
    let list = Pairs {
        task: &task,
        angles: &qs[..pairs],
        components: &cs[..pairs],
        evals,
    };
    let count = FullList::Searched(list).write_allowed(Limits::none(), angles, flags);
    solve::given(count, evals, sixes, bytes)
}
