// Compares forward kinematics, as the library has it, with outside results. Standard input has
// records of 64 words: the id, which is 0, the arm's 39 numbers, six angles and 18 words of results,
// as `oracle layout` has them. `oracle cases kinematics 1 500` made the stored cases;
// tools/compare/compare.sh runs others.
#![tactic(auto)]

use std::io;

// The functions, by their ids.
const NAMES: [&str; 1] = ["forward_kinematics"];

const ARM: usize = 1;

const ANGLES: usize = 40;

const RESULTS: usize = 46;

// The rotation by rows and the place stand first among the results, and six words more are zero.
fn agrees(bytes: &[u8; 512]) -> bool {
    let arm: [f64; 39] = cases::array_of(bytes, ARM);
    let angles: [f64; 6] = cases::array_of(bytes, ANGLES);
    let mut pose = [0.0; 12];
    let is_ok = forward::forward(&arm, &angles, &mut pose).is_ok();
    is_ok
        && cases::agree(bytes, RESULTS, &pose.map(cases::pattern))
        && cases::agree(bytes, RESULTS + 12, &[0; 6])
}

fn main(rt: HostRuntime) -> io::Result<()> {
    cases::run(&rt, &mut [0; 512], 0, &NAMES, |bytes, _id| {
        Some(agrees(bytes.as_array()?))
    })
}
