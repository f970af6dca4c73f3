// The subproblems, and the choice among subproblem 5's candidates.
ghost use Rattle.std.specs.Prelude.{◌+◌, ◌≤◌};

use crate::shapes::{Row, at, put, put_list, put_solved1, put_solved2};
use array_vec::ArrayVec;
use float::SinCos;
use linear::Vector3;
use solutionset::{SolutionSet2, Triple};
use subproblem5::reduced_solutionset as reduced;
use subproblem6::subproblem6;
use subproblems::{Solved2, subproblem1, subproblem2, subproblem3, subproblem4};
use subproblems_sc::{subproblem1_sc, subproblem3_sc, subproblem4_sc};

fn vectors(args: &[f64; 40], i: usize) -> [Vector3; 4]
    requires { i + 12 ≤ 40 }
{
    [
        at(args, i),
        at(args, i + 3),
        at(args, i + 6),
        at(args, i + 9),
    ]
}

fn subproblem5(args: &[f64; 40], out: &mut [u64; 23]) {
    let set = subproblem5::subproblem5(
        at(args, 0),
        at(args, 3),
        at(args, 6),
        at(args, 9),
        at(args, 12),
        at(args, 15),
        at(args, 18),
    );
    put_list(out, &set.get_all());
}

fn subproblem6_of(args: &[f64; 40], out: &mut [u64; 23]) {
    let h = vectors(args, 0);
    let k = vectors(args, 12);
    let p = vectors(args, 24);
    let set = subproblem6(h, k, p, args[36], args[37]);
    put_list(out, &set.get_all());
}

// A set of sines and cosines: its count and its values. (Other lists put zeros to a slot that is not used;
// here it keeps its words.)
fn put_sin_cos_set(out: &mut [u64; 23], set: SolutionSet2<SinCos>) {
    match set {
        SolutionSet2::Zero => {}
        SolutionSet2::One(p) => {
            out[0] = 1;
            put(out, 1, p);
        }
        SolutionSet2::Two(p, q) => {
            out[0] = 2;
            put(out, 1, p);
            put(out, 3, q);
        }
    }
}

fn put_solved_sin_cos(out: &mut [u64; 23], s: Solved2<SinCos>) {
    put_sin_cos_set(out, s.set);
    out[5] = u64::from(s.is_ls);
}

pub(crate) fn subproblem(id: u64, args: &[f64; 40], out: &mut [u64; 23]) {
    let a = at(args, 0);
    let b = at(args, 3);
    let c = at(args, 6);
    match id {
        1 => put_solved1(out, subproblem1(a, b, c)),
        2 => {
            let s = subproblem2(a, b, c, at(args, 9));
            put_solved2(out, &s.set.get_all(), s.is_ls);
        }
        3 => {
            let s = subproblem3(a, b, c, args[9]);
            put_solved2(out, &s.set.get_all(), s.is_ls);
        }
        4 => {
            let s = subproblem4(a, b, c, args[9]);
            put_solved2(out, &s.set.get_all(), s.is_ls);
        }
        5 => subproblem5(args, out),
        6 => subproblem6_of(args, out),
        7 => put_solved1(out, subproblem1_sc(a, b, c)),
        8 => put_solved_sin_cos(out, subproblem3_sc(a, b, c, args[9])),
        9 => put_solved_sin_cos(out, subproblem4_sc(a, b, c, args[9])),
        _ => {}
    }
}

// The triples from the second argument on.
fn triples(args: &[f64; 40], count: usize) -> ArrayVec<Triple, 16>
    requires { count ≤ 12 }
{
    let (found, _) = args[1..].as_chunks::<3>();
    let mut all = ArrayVec::new();
    for t in &found[..count] {
        all.push(Triple::of(*t));
    }
    all
}

// Number 10, whose first argument is a whole number: that of the triples. More than its records have
// room for are no count of a result.
pub(crate) fn reduced_solutionset(count: u64, args: &[f64; 40], out: &mut [u64; 23]) {
    if count > 12 {
        out[0] = u64::MAX;
        return;
    }
    let set = reduced(&triples(args, count as usize));
    put_list(out, &set.get_all());
}
