// What the benchmark links (tools/measure/bench_functions.sh): calls_c for a C or Rust caller.
#![tactic(auto)]

ghost use Rattle.std.specs.Prelude.{◌≡◌};
ghost use Rattle.answers.specs.Written.{Wrote};
ghost use Rattle.forward.specs.Forward.{forward_pose};
ghost use Rattle.calls_c.specs.Numbered.{family_answers};

// Of polynomial, qr and ellipse.
#[unsafe(no_mangle)]
pub extern "C" fn bench_polynomial(id: u64, args: &[f64; 40], out: &mut [u64; 23]) {
    calls_c::bench_polynomial(id, args, out);
}

#[unsafe(no_mangle)]
pub extern "C" fn bench_subproblem(id: u64, args: &[f64; 40], out: &mut [u64; 23]) {
    calls_c::bench_subproblem(id, args, out);
}

#[unsafe(no_mangle)]
pub extern "C" fn bench_reduced_solutionset(count: u64, args: &[f64; 40], out: &mut [u64; 23]) {
    calls_c::bench_reduced_solutionset(count, args, out);
}

#[unsafe(no_mangle)]
pub extern "C" fn bench_family(
    id: u64,
    arm: &[f64; 39],
    pose: &[f64; 12],
    angles: &mut [f64; 48],
    flags: &mut [u8; 8],
) -> usize
    ensures { Wrote (family_answers id arm.now pose.now) angles.old flags.old angles.new flags.new result }
{
    calls_c::bench_family(id, arm, pose, angles, flags)
}

#[unsafe(no_mangle)]
pub extern "C" fn bench_forward_kinematics(arm: &[f64; 39], angles: &[f64; 6], pose: &mut [f64; 12])
    ensures { pose.new ≡ forward_pose arm.now angles.now pose.old }
{
    calls_c::bench_forward_kinematics(arm, angles, pose);
}
