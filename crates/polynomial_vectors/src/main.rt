// Compares the crate polynomial with outside results. Standard input has records of 64 words: the
// id of a function, 40 words of arguments and 23 of results, as `oracle layout` has them.
// `oracle cases polynomial 373 500` made the stored cases, in which every count of roots and of
// points occurs; tools/compare/compare.sh runs others.
#![tactic(auto)]

use std::io;

// The functions, by their ids.
const NAMES: [&str; 10] = [
    "cone_polynomials",
    "vec_self_convolve_2",
    "vec_self_convolve_3",
    "vec_convolve_3",
    "solve_quartic_roots",
    "solve_cubic_roots",
    "solve_quadratic_roots",
    "solve_lower_triangular_system_2x2",
    "qr",
    "solve_two_ellipse_numeric",
];

// The place of the first result.
const RESULTS: usize = 41;

fn agrees(bytes: &[u8; 512], id: u64) -> bool {
    let args = cases::array_of(bytes, 1);
    let mut out = [0u64; 23];
    calls_c::bench_polynomial(id, &args, &mut out);
    cases::agree(bytes, RESULTS, &out)
}

fn main(rt: HostRuntime) -> io::Result<()> {
    cases::run(&rt, &mut [0; 512], 0, &NAMES, |bytes, id| {
        Some(agrees(bytes.as_array()?, id))
    })
}
