// The end of the three families with a spherical wrist.
#![tactic(auto)]

ghost use Rattle.std.specs.Prelude.{◌≡◌, [], ◌∷◌};
ghost use Rattle.linear.specs.Matrix.{apply, transpose};
ghost use Rattle.families_wrist.specs.Wrist.{t5, wrist_q5, wrist};

use answers::Answer;
use array_vec::ArrayVec;
use families_shared::Arm;
use linear::{Matrix3, Vector3};
use subproblems::Solved2;

// r_36, and what the calls of subproblem1 need of it at each q5: r_36 * h6 and r_36.transpose() * h4.
#[derive(Clone, Copy)]
struct GivenR36<'a> {
    arm: &'a Arm,
    r_36: Matrix3,
    to: Vector3,
    from: Vector3,
    ghost to_value: { to ≡ apply r_36 arm.now.kin.h6 },
    ghost from_value: { from ≡ apply (transpose r_36) arm.now.kin.h4 },
}

impl GivenR36<'_> {
    #[tactic(auto, unfolding(crate::specs::Wrist::t5))]
    fn t5(&self) -> Solved2<f64>
        ensures { result ≡ t5 self.now.arm.now.kin self.now.r_36 }
    {
        let kin = &self.arm.kin;
        let d = linear::dot(linear::row_apply(kin.h4, self.r_36), kin.h6);
        subproblems::subproblem4(kin.h4, kin.h6, kin.h5, d)
    }

    #[tactic(auto, unfolding(crate::specs::Wrist::wrist_q5))]
    fn wrist_q5(&self, q1: f64, q2: f64, q3: f64, is_ls: bool, q5: f64) -> Answer
        ensures { result ∷ [] ≡ wrist_q5 self.now.arm.now.kin self.now.arm.now.tolerance self.now.r_36 q1 q2 q3 is_ls q5 }
    {
        let arm = self.arm;
        let kin = &arm.kin;
        let p4 = linear::apply(arm.h5.ahead(q5), kin.h6);
        let q4 = subproblems::subproblem1_within(p4, self.to, kin.h4, arm.tolerance);
        let p6 = linear::apply(arm.h5.back(q5), kin.h4);
        let q6 = subproblems::subproblem1_within(p6, self.from, -kin.h6, arm.tolerance);
        Answer {
            q1,
            q2,
            q3,
            q4: q4.theta,
            q5,
            q6: q6.theta,
            is_ls: is_ls || q4.is_ls || q6.is_ls,
        }
    }
}

#[tactic(auto, using(families_shared::proofs::Gathered::whole), unfolding(crate::specs::Wrist::wrist))]
pub fn wrist(
    arm: &Arm,
    r_36: Matrix3,
    q1: f64,
    q2: f64,
    q3: f64,
    is_ls: bool,
) -> ArrayVec<Answer, 2>
    ensures { result.items ≡ wrist arm.now.kin arm.now.tolerance r_36 q1 q2 q3 is_ls }
{
    let given = GivenR36 {
        arm,
        r_36,
        to: linear::apply(r_36, arm.kin.h6),
        from: linear::apply(linear::transpose(r_36), arm.kin.h4),
    };
    let t = given.t5();
    let is_ls = is_ls || t.is_ls;
    let mut all = ArrayVec::new();
    for q5 in t.set.get_all().iter() {
        all.push(given.wrist_q5(q1, q2, q3, is_ls, *q5));
    }
    all
}
