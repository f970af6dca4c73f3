// Compares the crate float with outside results. Standard input has records of five words: the id
// of a function, x, y, and one or two results. The program writes, for each function, how many cases
// there were and how many of them the port gives another result for.
// tools/make/make_float_vectors.py makes the stored cases; tools/compare/compare.sh runs others.
#![tactic(auto)]

use std::io;

// The functions, by their ids.
const NAMES: [&str; 17] = [
    "abs",
    "is_finite",
    "sqrt",
    "cbrt",
    "sin",
    "cos",
    "sin_cos",
    "atan2",
    "rem_tau",
    "rem_euclid_tau",
    "wrap_to_pi",
    "inverse_wrap_to_pi",
    "infinity",
    "add",
    "sub",
    "mul",
    "div",
];

// The place of the first result.
const RESULTS: usize = 3;

// Results that are one f64. The last four are the operations of the compiled code, on which every other
// result rests.
fn result(id: u64, x: f64, y: f64) -> f64 {
    match id {
        0 => float::abs(x),
        2 => float::sqrt(x),
        3 => float::cbrt(x),
        4 => float::sin(x),
        5 => float::cos(x),
        7 => float::atan2(x, y),
        8 => float::rem_tau(x),
        9 => float::rem_euclid_tau(x),
        10 => float::wrap_to_pi(x),
        11 => float::inverse_wrap_to_pi(x),
        12 => float::infinity(),
        13 => x + y,
        14 => x - y,
        15 => x * y,
        _ => x / y,
    }
}

fn sin_cos_agrees(bytes: &[u8; 40], x: f64) -> bool {
    let p = float::sin_cos(x);
    cases::agree(bytes, RESULTS, &[p.sin, p.cos].map(cases::pattern))
}

fn agrees(bytes: &[u8; 40], id: u64) -> bool {
    let [x, y]: [f64; 2] = cases::array_of(bytes, 1);
    match id {
        1 => cases::agree(bytes, RESULTS, &[u64::from(float::is_finite(x))]),
        6 => sin_cos_agrees(bytes, x),
        _ => cases::gives(bytes, RESULTS, result(id, x, y)),
    }
}

fn main(rt: HostRuntime) -> io::Result<()> {
    cases::run(&rt, &mut [0; 40], 0, &NAMES, |bytes, id| {
        Some(agrees(bytes.as_array()?, id))
    })
}
