// Compares the sort of subproblem 5's candidates, and the choice among them, with outside results.
// Standard input has records of 99 words: the id of a function, the number of the candidates, room
// for sixteen of them, and 49 words of results, as `oracle layout` has them. `oracle cases sort 1 100`
// made the stored cases; tools/compare/compare.sh runs others.
#![tactic(auto)]

ghost use Rattle.std.specs.Prelude.{◌≤◌};

use array_vec::ArrayVec;
use cases::pattern;
use solutionset::Triple;
use std::io;
use triple_sort::{Ordered, sort};

// The functions, by their ids.
const NAMES: [&str; 2] = ["sort", "reduced_with_passes"];

const COUNT: usize = 1;

const CANDIDATES: usize = 2;

// The place of the first result.
const RESULTS: usize = 50;

// A record's candidates. Past the last of them it has zeros.
fn read(bytes: &[u8; 792]) -> [Triple; 16] {
    let numbers: [f64; 48] = cases::array_of(bytes, CANDIDATES);
    let (rows, _) = numbers.as_chunks::<3>();
    let mut solutions = [Triple::default(); 16];
    for (solution, row) in solutions.iter_mut().zip(rows) {
        *solution = Triple {
            first: row[0],
            second: row[1],
            third: row[2],
        };
    }
    solutions
}

// Each with its first number for the ordering value, as which they sort by the triple.
fn by_first(solutions: &[Triple; 16]) -> [Ordered; 16] {
    let mut t = [Ordered::default(); 16];
    for (o, solution) in t.iter_mut().zip(solutions) {
        *o = Ordered {
            ordering: solution.first,
            solution: *solution,
        };
    }
    t
}

// Each with the ordering value of the second sort, which is 1 over the square of its gap.
fn with_gaps(t: &mut [Ordered]) {
    let mut last = float::infinity();
    for o in t.iter_mut() {
        let delta = o.solution.first - last;
        o.ordering = 1.0 / (delta * delta);
        last = o.solution.first;
    }
}

fn words(solution: Triple) -> [u64; 3] {
    [
        pattern(solution.first),
        pattern(solution.second),
        pattern(solution.third),
    ]
}

// The sorted candidates, and the number of passes.
fn agrees_sort(bytes: &[u8; 792], n: usize) -> bool
    requires { n ≤ 16 }
{
    let mut t = by_first(&read(bytes));
    let passes = sort(&mut t[..n]);
    let mut results = [0u64; 49];
    let (rows, _) = results.as_chunks_mut::<3>();
    for (row, o) in rows.iter_mut().zip(&t) {
        *row = words(o.solution);
    }
    results[48] = passes as u64;
    cases::agree(bytes, RESULTS, &results)
}

// The passes of both sorts. Up to four are not sorted.
fn both_sorts(solutions: &[Triple; 16], n: usize) -> [u64; 2]
    requires { n ≤ 16 }
{
    if n <= 4 {
        return [0, 0];
    }
    let mut t = by_first(solutions);
    let first = sort(&mut t[..n]);
    with_gaps(&mut t[..n]);
    let second = sort(&mut t[..n]);
    [first as u64, second as u64]
}

// The number of the solutions that are kept, they themselves, and the passes.
fn agrees_reduced(bytes: &[u8; 792], n: usize) -> bool
    requires { n ≤ 16 }
{
    let solutions = read(bytes);
    let mut candidates: ArrayVec<Triple, 16> = ArrayVec::new();
    candidates.extend_from_slice(&solutions[..n]);
    let kept = subproblem5::reduced_solutionset(&candidates).get_all();
    let mut results = [0u64; 12];
    let (rows, _) = results.as_chunks_mut::<3>();
    for (row, solution) in rows.iter_mut().zip(kept.iter()) {
        *row = words(*solution);
    }
    cases::agree(bytes, RESULTS, &[kept.len() as u64])
        && cases::agree(bytes, RESULTS + 1, &results)
        && cases::agree(bytes, RESULTS + 13, &both_sorts(&solutions, n))
}

// More candidates than a record has room for are a mismatch.
fn agrees(bytes: &[u8; 792], id: u64) -> bool {
    let n = cases::word(bytes, COUNT);
    if n > 16 {
        return false;
    }
    match id {
        0 => agrees_sort(bytes, n as usize),
        _ => agrees_reduced(bytes, n as usize),
    }
}

fn main(rt: HostRuntime) -> io::Result<()> {
    cases::run(&rt, &mut [0; 792], 0, &NAMES, |bytes, id| {
        Some(agrees(bytes.as_array()?, id))
    })
}
