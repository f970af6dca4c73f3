// Compares the crate linear with outside results. Standard input has records of 28 words: the id of
// a function, 18 words of arguments and 9 of results. A vector is x, y, z, and a matrix goes by rows.
// `oracle cases linear 1 60` made the stored cases; tools/compare/compare.sh runs others.
#![tactic(auto)]

ghost use Rattle.std.specs.Prelude.{◌+◌, ◌≤◌};

use linear::{Matrix3, Vector3};
use std::io;

// The functions, by their ids.
const NAMES: [&str; 15] = [
    "dot",
    "cross",
    "norm",
    "norm_squared",
    "normalize",
    "add",
    "sub",
    "neg",
    "scale",
    "product",
    "apply",
    "transpose",
    "hat",
    "rot",
    "column_sum",
];

// The place of the first result.
const RESULTS: usize = 19;

fn vector(bytes: &[u8; 224], i: usize) -> Vector3
    requires { i + 3 ≤ 28 }
{
    let [x, y, z]: [f64; 3] = cases::array_of(bytes, i);
    Vector3 { x, y, z }
}

fn matrix(bytes: &[u8; 224], i: usize) -> Matrix3
    requires { i + 9 ≤ 28 }
{
    [
        cases::array_of(bytes, i),
        cases::array_of(bytes, i + 3),
        cases::array_of(bytes, i + 6),
    ]
}

fn gives(bytes: &[u8; 224], x: f64) -> bool {
    cases::gives(bytes, RESULTS, x)
}

fn gives_vector(bytes: &[u8; 224], v: Vector3) -> bool {
    cases::agree(bytes, RESULTS, &[v.x, v.y, v.z].map(cases::pattern))
}

fn gives_matrix(bytes: &[u8; 224], m: Matrix3) -> bool {
    let words = m.map(|row| row.map(cases::pattern));
    cases::agree(bytes, RESULTS, words.as_flattened())
}

fn agrees(bytes: &[u8; 224], id: u64) -> bool {
    let a = vector(bytes, 1);
    let b = vector(bytes, 4);
    let d = vector(bytes, 10);
    let m = matrix(bytes, 1);
    match id {
        0 => gives(bytes, linear::dot(a, b)),
        1 => gives_vector(bytes, linear::cross(a, b)),
        2 => gives(bytes, linear::norm(a)),
        3 => gives(bytes, linear::norm_squared(a)),
        4 => gives_vector(bytes, linear::normalize(a)),
        5 => gives_vector(bytes, a + b),
        6 => gives_vector(bytes, a - b),
        7 => gives_vector(bytes, -a),
        8 => gives_vector(bytes, a * b.x),
        9 => gives_matrix(bytes, linear::product(m, matrix(bytes, 10))),
        10 => gives_vector(bytes, linear::apply(m, d)),
        11 => gives_matrix(bytes, linear::transpose(m)),
        12 => gives_matrix(bytes, linear::hat(a)),
        13 => gives_matrix(bytes, linear::rot(a, b.x)),
        _ => gives_vector(bytes, linear::column_sum(a, b, vector(bytes, 7), d)),
    }
}

fn main(rt: HostRuntime) -> io::Result<()> {
    cases::run(&rt, &mut [0; 224], 0, &NAMES, |bytes, id| {
        Some(agrees(bytes.as_array()?, id))
    })
}
