// What the two families with three parallel axes share.
#![tactic(auto)]

ghost use Rattle.std.specs.Prelude.{◌≡◌, ◌||◌, [], ◌∷◌};
ghost use Rattle.linear.specs.Matrix.{apply};
ghost use Rattle.subproblems.specs.Subproblem1.{subproblem1_within};
ghost use Rattle.families_elbow.specs.Elbow.{theta3, elbow_q3, elbow};

use answers::Answer;
use array_vec::ArrayVec;
use families_shared::Arm;
use kinematics::Kinematics;
use linear::{Matrix3, Vector3};
use subproblems::{Solved1, Solved2};

// `to` is r_01.transpose() * r_06 * h6.
pub fn theta14(arm: &Arm, to: Vector3, r_45: Matrix3) -> Solved1<f64>
    ensures { result ≡ subproblem1_within (apply r_45 arm.now.kin.h6) to arm.now.kin.h2 arm.now.tolerance }
{
    let from = linear::apply(r_45, arm.kin.h6);
    subproblems::subproblem1_within(from, to, arm.kin.h2, arm.tolerance)
}

#[tactic(auto, unfolding(crate::specs::Elbow::theta3))]
fn theta3(kin: Kinematics, d_inner: Vector3) -> Solved2<f64>
    ensures { result ≡ theta3 kin d_inner }
{
    subproblems::subproblem3(-kin.p3, kin.p2, kin.h2, linear::norm(d_inner))
}

// What is known before q3, and gives it, q2 and q4. is_ls joins every flag but those of q2 and q3.
#[derive(Clone, Copy)]
pub struct GivenQ156 {
    pub d_inner: Vector3,
    pub theta14: f64,
    pub q1: f64,
    pub q5: f64,
    pub q6: f64,
    pub is_ls: bool,
}

impl GivenQ156 {
    #[tactic(auto, unfolding(crate::specs::Elbow::elbow_q3))]
    fn elbow_q3(&self, arm: &Arm, q3_is_ls: bool, q3: f64) -> Answer
        ensures { result ∷ [] ≡ elbow_q3 arm.now.kin arm.now.tolerance self.now.d_inner self.now.theta14 self.now.q1 self.now.q5 self.now.q6 (self.now.is_ls || q3_is_ls) q3 }
    {
        let kin = &arm.kin;
        let p = kin.p2 + linear::apply(arm.h2.ahead(q3), kin.p3);
        let s = subproblems::subproblem1_within(p, self.d_inner, kin.h2, arm.tolerance);
        let q2 = s.theta;
        Answer {
            q1: self.q1,
            q2,
            q3,
            // By the wrap_to_pi of inverse_kinematics/auxiliary.rs: -PI at PI.
            q4: float::wrap_to_pi(self.theta14 - q2 - q3),
            q5: self.q5,
            q6: self.q6,
            is_ls: self.is_ls || q3_is_ls || s.is_ls,
        }
    }

    #[tactic(auto, using(families_shared::proofs::Gathered::whole), unfolding(crate::specs::Elbow::elbow))]
    pub fn elbow(&self, arm: &Arm) -> ArrayVec<Answer, 2>
        ensures { result.items ≡ elbow arm.now.kin arm.now.tolerance self.now.d_inner self.now.theta14 self.now.q1 self.now.q5 self.now.q6 self.now.is_ls }
    {
        let t = theta3(arm.kin, self.d_inner);
        let mut all = ArrayVec::new();
        for q3 in t.set.get_all().iter() {
            all.push(self.elbow_q3(arm, t.is_ls, *q3));
        }
        all
    }
}
