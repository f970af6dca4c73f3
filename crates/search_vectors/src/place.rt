// What added one pair, within its row of samples: the refinement of a crossing, or a dip.
ghost use Rattle.std.specs.Prelude.{◌+◌, ◌<◌, ◌≤◌, ◌^◌};

use crate::record;
use float::is_finite;
use search_edge::edge::Gap;
use search_error::Branch;
use search_pairs::{LentPairs, Row};
use search_refine::Point;

// A crossing between the samples l and l + 1.
fn crossing(branch: &Branch, row: Row, l: usize, book: &[u8; 1830400], j: usize) -> bool
    requires { (j < 17600) × (l + 1 < 2 ^ 64) }
{
    let a = row.at(l);
    let b = row.at(l + 1);
    let root = search_refine::refine::refine_bracket(branch, a, b);
    let is_q1 = record::gives(book, j, record::Q1, root.x);
    let is_whole = record::word(book, j, record::PART) == 0;
    is_q1 && is_whole && (a.y < 0.0) != (b.y < 0.0)
}

// Whether pair j is that part of a dip whose pairs are these.
fn is_part(book: &[u8; 1830400], j: usize, pairs: usize, q0: f64, q1: f64) -> bool
    requires { j < 17600 }
{
    match record::word(book, j, record::PART) {
        0 => pairs == 1 && record::gives(book, j, record::Q1, q0),
        1 => pairs == 2 && record::gives(book, j, record::Q1, q0),
        2 => pairs == 2 && record::gives(book, j, record::Q1, q1),
        _ => false,
    }
}

// A dip between the samples a and b.
fn dip(branch: &Branch, row: Row, a: usize, b: usize, book: &[u8; 1830400], j: usize) -> bool
    requires { j < 17600 }
{
    let mut angles = [0.0; 2];
    let mut components = [0; 2];
    let mut list = LentPairs::new(&mut angles, &mut components);
    search_dip::dip::minimise_dip(branch, row.at(a), row.at(b), &mut list);
    let pairs = list.pairs;
    is_part(book, j, pairs, angles[0], angles[1])
}

// Whether no run of finite samples goes on at l, in a row of m samples.
fn ends(row: Row, m: usize, l: usize) -> bool {
    l >= m || !is_finite(row.at(l).y)
}

// Whether none came before l.
fn begins(row: Row, l: usize) -> bool {
    l == 0 || !is_finite(row.at(l - 1).y)
}

// Whether the place that pair j has in a row of m samples gives that pair.
fn in_row(branch: &Branch, row: Row, m: usize, book: &[u8; 1830400], j: usize) -> bool
    requires { (j < 17600) × (m ≤ 1000) }
{
    let at = record::word(book, j, record::INDEX);
    if at >= m as u64 {
        return false;
    }
    let l = at as usize;
    if l + 1 >= m {
        return false;
    }
    match record::word(book, j, record::PLACE) {
        0 => crossing(branch, row, l, book, j),
        1 => l > 0 && dip(branch, row, l - 1, l + 1, book, j),
        2 => ends(row, m, l + 2) && dip(branch, row, l, l + 1, book, j),
        3 => begins(row, l) && dip(branch, row, l, l + 1, book, j),
        _ => false,
    }
}

// The branch that is at `inside` and not at `outside`: its samples towards its end, from the left to the right.
fn in_edge(branch: &Branch, inside: Point, outside: f64, book: &[u8; 1830400], j: usize) -> bool
    requires { j < 17600 }
{
    let e = search_edge::edge::bisect(branch, Gap { inside, outside });
    let mut row = search_edge::edge::edge_row(branch, e.inside, inside);
    if inside.x < e.inside.x {
        row.reverse();
    }
    in_row(branch, Row::Edge(row.as_slice()), row.len(), book, j)
}

// Pair j is from the grid's samples of the branch's component, or from an edge between two of them.
pub(crate) fn right(branch: &Branch, n: usize, row: Row, book: &[u8; 1830400], j: usize) -> bool
    requires { (n ≤ 400) × (j < 17600) }
{
    let at = record::word(book, j, record::ROW);
    if at == 0 {
        return in_row(branch, row, n + 1, book, j);
    }
    if at > n as u64 {
        return false;
    }
    let p = row.at(at as usize - 1);
    let q = row.at(at as usize);
    match (is_finite(p.y), is_finite(q.y)) {
        (true, false) => in_edge(branch, p, q.x, book, j),
        (false, true) => in_edge(branch, q, p.x, book, j),
        _ => false,
    }
}
