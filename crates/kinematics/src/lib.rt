// The arm as a value, the pose, and forward kinematics: each function equals its definition in
// specs/. An arm and a pose as numbers have their length in their type; `vector_at` asks that the list is
// long enough.
#![tactic(auto)]

ghost use Rattle.std.specs.Prelude.{◌≡◌, ◌+◌, ◌≤◌, length};
ghost use Rattle.kinematics.specs.Kinematics.{vector_at, from_numbers};
ghost use Rattle.kinematics.specs.Pose.{row_at, pose_rotation, pose_place, pose_numbers, joint, forward_kinematics};

use linear::{Matrix3, Vector3};

// Six axes and seven offsets: h1 is the Rust's h.column(0), and p0 its p.column(0).
#[derive(Clone, Copy)]
pub struct Kinematics {
    pub h1: Vector3,
    pub h2: Vector3,
    pub h3: Vector3,
    pub h4: Vector3,
    pub h5: Vector3,
    pub h6: Vector3,
    pub p0: Vector3,
    pub p1: Vector3,
    pub p2: Vector3,
    pub p3: Vector3,
    pub p4: Vector3,
    pub p5: Vector3,
    pub p6: Vector3,
}

// A rotation by its rows, and a place.
#[derive(Clone, Copy)]
pub struct Pose {
    pub rotation: Matrix3,
    pub place: Vector3,
}

// The three numbers from i on.
pub fn vector_at(numbers: &[f64], i: usize) -> Vector3
    requires { i + 3 ≤ length numbers.now }
    ensures { result ≡ vector_at numbers.now i }
{
    Vector3 {
        x: numbers[i],
        y: numbers[i + 1],
        z: numbers[i + 2],
    }
}

// The arm of 39 numbers: the axes, then the offsets.
#[tactic(auto, unfolding(crate::specs::Kinematics::from_numbers))]
pub fn from_numbers(arm: &[f64; 39]) -> Kinematics
    ensures { result ≡ from_numbers arm.now }
{
    Kinematics {
        h1: vector_at(arm, 0),
        h2: vector_at(arm, 3),
        h3: vector_at(arm, 6),
        h4: vector_at(arm, 9),
        h5: vector_at(arm, 12),
        h6: vector_at(arm, 15),
        p0: vector_at(arm, 18),
        p1: vector_at(arm, 21),
        p2: vector_at(arm, 24),
        p3: vector_at(arm, 27),
        p4: vector_at(arm, 30),
        p5: vector_at(arm, 33),
        p6: vector_at(arm, 36),
    }
}

// The three numbers from i on, as a row.
fn row_at(numbers: &[f64], i: usize) -> [f64; 3]
    requires { i + 3 ≤ length numbers.now }
    ensures { result ≡ row_at numbers.now i }
{
    [numbers[i], numbers[i + 1], numbers[i + 2]]
}

// The rotation of a pose of 12 numbers: by rows, before the place.
pub fn pose_rotation(numbers: &[f64; 12]) -> Matrix3
    ensures { result ≡ pose_rotation numbers.now }
{
    [row_at(numbers, 0), row_at(numbers, 3), row_at(numbers, 6)]
}

// Its place.
pub fn pose_place(numbers: &[f64; 12]) -> Vector3
    ensures { result ≡ pose_place numbers.now }
{
    vector_at(numbers, 9)
}

impl Pose {
    // The pose as 12 numbers: the rotation by rows, then the place.
    pub fn numbers(self) -> [f64; 12]
        ensures { result ≡ pose_numbers self }
    {
        let [a, b, c] = self.rotation;
        let p = self.place;
        [
            a[0], a[1], a[2], b[0], b[1], b[2], c[0], c[1], c[2], p.x, p.y, p.z,
        ]
    }

    // The pose after one joint more: its axis, its angle, and the offset to the next.
    #[tactic(auto, unfolding(crate::specs::Pose::joint))]
    fn joint(self, h: Vector3, t: f64, offset: Vector3) -> Pose
        ensures { result ≡ joint self h t offset }
    {
        let rotation = linear::product(self.rotation, linear::rot(h, t));
        let place = self.place + linear::apply(rotation, offset);
        Pose { rotation, place }
    }
}

#[tactic(auto, unfolding(crate::specs::Pose::forward_kinematics))]
pub fn forward_kinematics(kin: Kinematics, theta: [f64; 6]) -> Pose
    ensures { result ≡ forward_kinematics kin theta }
{
    let from = Pose {
        rotation: linear::identity(),
        place: kin.p0,
    };
    let at1 = from.joint(kin.h1, theta[0], kin.p1);
    let at2 = at1.joint(kin.h2, theta[1], kin.p2);
    let at3 = at2.joint(kin.h3, theta[2], kin.p3);
    let at4 = at3.joint(kin.h4, theta[3], kin.p4);
    let at5 = at4.joint(kin.h5, theta[4], kin.p5);
    at5.joint(kin.h6, theta[5], kin.p6)
}
