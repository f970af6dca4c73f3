// The functions by number, over plain numbers: what their test programs call, and under names that
// begin with bench_ the benchmark, by way of bench_c (tools/measure/bench_functions.sh). Numbers, arguments and results are
// those of the oracle's test records (`oracle layout`): a vector stands by its parts, a matrix by
// rows, a complex number as re and im, a set or a list of roots as its count and all its slots. The
// results go to the first words of `out`. A number that no function has writes nothing. (Numbers of
// functions, and lists that travel together, are as a caller in C hands them over: bench_c's exports have them.)
#![tactic(auto)]

mod family_call;
mod polynomials;
mod shapes;
mod subproblem;

ghost use Rattle.std.specs.Prelude.{◌≡◌};
ghost use Rattle.answers.specs.Written.{Wrote};
ghost use Rattle.forward.specs.Forward.{forward_pose};
ghost use Rattle.calls_c.specs.Numbered.{family_answers};

pub use family_call::family;

// Of polynomial, qr and ellipse.
pub fn bench_polynomial(id: u64, args: &[f64; 40], out: &mut [u64; 23]) {
    polynomials::polynomial(id, args, out);
}

pub fn bench_subproblem(id: u64, args: &[f64; 40], out: &mut [u64; 23]) {
    subproblem::subproblem(id, args, out);
}

pub fn bench_reduced_solutionset(count: u64, args: &[f64; 40], out: &mut [u64; 23]) {
    subproblem::reduced_solutionset(count, args, out);
}

pub fn bench_family(
    id: u64,
    arm: &[f64; 39],
    pose: &[f64; 12],
    angles: &mut [f64; 48],
    flags: &mut [u8; 8],
) -> usize
    ensures { Wrote (family_answers id arm.now pose.now) angles.old flags.old angles.new flags.new result }
{
    family(id, arm, pose, angles, flags)
}

pub fn bench_forward_kinematics(arm: &[f64; 39], angles: &[f64; 6], pose: &mut [f64; 12])
    ensures { pose.new ≡ forward_pose arm.now angles.now pose.old }
{
    let _ = forward::forward(arm, angles, pose);
}
