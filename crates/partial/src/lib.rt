// forward_kinematics_partial of inverse_kinematics/auxiliary.rs: an arm of seven axes with one joint
// locked is an arm of six.
#![tactic(auto)]

ghost use Rattle.std.specs.Prelude.{◌≡◌, ◌≤◌};
ghost use Rattle.partial.specs.Partial.{kin_new, locked_rotation, forward_kinematics_partial};
ghost use Rattle.partial.specs.Columns.{axis, offset};

use kinematics::{Kinematics, vector_at};
use linear::{Matrix3, Vector3, apply};

// The arm that is left, and the rotation that its tool has to reach.
#[derive(Clone, Copy)]
pub struct Partial {
    pub kin: Kinematics,
    pub rotation: Matrix3,
}

// The joint that is locked, counted from 0, and its angle.
#[derive(Clone, Copy)]
pub struct Locked {
    pub joint: usize,
    pub angle: f64,
    pub ghost seven_joints: { joint ≤ 6 },
}

impl Locked {
    // The rotation of the joint at its angle.
    #[tactic(auto, unfolding(crate::specs::Partial::locked_rotation))]
    pub fn rotation(self, arm: &[f64; 45]) -> Matrix3
        ensures { result ≡ locked_rotation arm.now self.angle self.joint }
    {
        linear::rot(vector_at(arm, 3 * self.joint), self.angle)
    }
}

// Axis i of the arm that is left.
#[tactic(auto, unfolding(crate::specs::Columns::axis))]
fn axis(arm: &[f64; 45], n: usize, r_n: Matrix3, i: usize) -> Vector3
    requires { i ≤ 5 }
    ensures { result ≡ axis arm.now n r_n i }
{
    if i < n {
        return vector_at(arm, 3 * i);
    }
    apply(r_n, vector_at(arm, 3 * (i + 1)))
}

// Offset i of the arm that is left.
#[tactic(auto, unfolding(crate::specs::Columns::offset))]
fn offset(arm: &[f64; 45], n: usize, r_n: Matrix3, i: usize) -> Vector3
    requires { i ≤ 6 }
    ensures { result ≡ offset arm.now n r_n i }
{
    let here = vector_at(arm, 21 + 3 * i);
    if i < n {
        return here;
    }
    let turned = apply(r_n, vector_at(arm, 21 + 3 * (i + 1)));
    if i == n {
        return here + turned;
    }
    turned
}

// The arm that is left where the locked joint has the rotation r_n.
#[tactic(auto, using(crate::proofs::Closed::columns))]
fn kin_new(arm: &[f64; 45], lock: Locked, r_n: Matrix3) -> Kinematics
    ensures { result ≡ kin_new arm.now lock.joint r_n }
{
    let n = lock.joint;
    Kinematics {
        h1: axis(arm, n, r_n, 0),
        h2: axis(arm, n, r_n, 1),
        h3: axis(arm, n, r_n, 2),
        h4: axis(arm, n, r_n, 3),
        h5: axis(arm, n, r_n, 4),
        h6: axis(arm, n, r_n, 5),
        p0: offset(arm, n, r_n, 0),
        p1: offset(arm, n, r_n, 1),
        p2: offset(arm, n, r_n, 2),
        p3: offset(arm, n, r_n, 3),
        p4: offset(arm, n, r_n, 4),
        p5: offset(arm, n, r_n, 5),
        p6: offset(arm, n, r_n, 6),
    }
}

#[tactic(auto, unfolding(crate::specs::Partial::forward_kinematics_partial))]
pub fn forward_kinematics_partial(arm: &[f64; 45], lock: Locked, r_6t: Matrix3) -> Partial
    ensures { result ≡ forward_kinematics_partial arm.now lock.angle lock.joint r_6t }
{
    let r_n = lock.rotation(arm);
    Partial {
        kin: kin_new(arm, lock, r_n),
        rotation: linear::product(r_n, r_6t),
    }
}
