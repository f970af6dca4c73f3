// Compares the crate complex with outside results. Standard input has records of seven words: the id
// of a function, four words of arguments and two of results. A complex number is re, im.
// `oracle cases complex 1 100` made the stored cases; tools/compare/compare.sh runs others.
#![tactic(auto)]

ghost use Rattle.std.specs.Prelude.{◌+◌, ◌≤◌};

use complex::Complex;
use std::io;

// The functions, by their ids.
const NAMES: [&str; 11] = [
    "add",
    "sub",
    "neg",
    "mul",
    "div",
    "scale",
    "over",
    "real_over",
    "abs",
    "sqrt",
    "cbrt",
];

// The place of the first result.
const RESULTS: usize = 5;

fn number(bytes: &[u8; 56], i: usize) -> Complex
    requires { i + 2 ≤ 7 }
{
    let [re, im]: [f64; 2] = cases::array_of(bytes, i);
    Complex { re, im }
}

// The results that are complex numbers.
fn result(bytes: &[u8; 56], id: u64) -> Complex {
    let z = number(bytes, 1);
    let w = number(bytes, 3);
    match id {
        0 => z + w,
        1 => z - w,
        2 => -z,
        3 => z * w,
        4 => z / w,
        5 => z * w.re,
        6 => z / w.re,
        7 => z.re / number(bytes, 2),
        9 => complex::sqrt(z),
        _ => complex::cbrt(z),
    }
}

fn gives_number(bytes: &[u8; 56], z: Complex) -> bool {
    cases::agree(bytes, RESULTS, &[z.re, z.im].map(cases::pattern))
}

fn agrees(bytes: &[u8; 56], id: u64) -> bool {
    if id == 8 {
        return cases::gives(bytes, RESULTS, complex::abs(number(bytes, 1)));
    }
    gives_number(bytes, result(bytes, id))
}

fn main(rt: HostRuntime) -> io::Result<()> {
    cases::run(&rt, &mut [0; 56], 0, &NAMES, |bytes, id| {
        Some(agrees(bytes.as_array()?, id))
    })
}
