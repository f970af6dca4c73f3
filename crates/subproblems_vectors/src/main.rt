// Compares the crate subproblems with outside results. Standard input has records of 64 words: the
// id of a function, 40 words of arguments and 23 of results, as `oracle layout` has them.
// `oracle cases subproblems 59 500` made the stored cases, in which subproblem5 has 0 to 16
// candidates; tools/compare/compare.sh runs others.
#![tactic(auto)]

use std::io;

// The functions, by their ids from 1 on.
const NAMES: [&str; 10] = [
    "subproblem1",
    "subproblem2",
    "subproblem3",
    "subproblem4",
    "subproblem5",
    "subproblem6",
    "subproblem1_sc",
    "subproblem3_sc",
    "subproblem4_sc",
    "reduced_solutionset",
];

// The place of the first result.
const RESULTS: usize = 41;

// No function has the number 0.
fn agrees(bytes: &[u8; 512], id: u64) -> bool {
    let args = cases::array_of(bytes, 1);
    let mut out = [0u64; 23];
    match id {
        0 => return false,
        10 => calls_c::bench_reduced_solutionset(cases::word(bytes, 1), &args, &mut out),
        _ => calls_c::bench_subproblem(id, &args, &mut out),
    }
    cases::agree(bytes, RESULTS, &out)
}

fn main(rt: HostRuntime) -> io::Result<()> {
    cases::run(&rt, &mut [0; 512], 1, &NAMES, |bytes, id| {
        Some(agrees(bytes.as_array()?, id))
    })
}
