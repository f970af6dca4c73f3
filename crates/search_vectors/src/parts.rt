// What added each pair. The search's parts are run apart on the grid's samples: each row of samples must
// add just the pairs that are stored as its own, each place in a row the pair that is stored as its own,
// and each component must have as many crossings as its stored pairs say.
ghost use Rattle.std.specs.Prelude.{◌<◌, ◌≤◌};

use crate::{place, record, rows};
use cases::Tally;
use float::is_finite;
use search::LentPairs;
use search_error::{Branch, Fixed};
use search_pairs::{Column, Row, Sample};

fn check_rows(
    book: &[u8; 1830400],
    m: usize,
    angles: &[f64; 17600],
    components: &[u8; 17600],
    rows: &[u64; 17600],
    tally: &mut Tally,
)
    requires { m ≤ 17600 }
{
    for j in 0..m {
        let is_row = record::word(book, j, record::ROW) == rows[j];
        let ok = is_row && record::is_pair(book, j, angles[j], components[j]);
        cases::count(tally, record::CHECKS, record::ROWS, ok);
    }
}

// The crossings that are stored for component i of the grid.
fn stored_crossings(book: &[u8; 1830400], m: usize, i: u64) -> u64
    requires { m ≤ 17600 }
{
    let mut count = 0u64;
    for j in 0..m {
        let is_i = record::word(book, j, record::COMPONENT) == i;
        let is_grid = record::word(book, j, record::ROW) == 0;
        let is_crossing = record::word(book, j, record::PLACE) == 0;
        if is_i && is_grid && is_crossing {
            count = count.wrapping_add(1);
        }
    }
    count
}

// Both are finite, one is negative and one is not.
fn crosses(y0: f64, y1: f64) -> bool {
    is_finite(y0) && is_finite(y1) && (y0 < 0.0) != (y1 < 0.0)
}

fn crossings(row: Row, n: usize) -> u64
    requires { n ≤ 400 }
{
    let mut count = 0u64;
    for k in 0..n {
        if crosses(row.at(k).y, row.at(k + 1).y) {
            count = count.wrapping_add(1);
        }
    }
    count
}

// The pairs of the branch's component by their places, and its crossings.
fn check_places(
    branch: &Branch,
    n: usize,
    row: Row,
    book: &[u8; 1830400],
    m: usize,
    tally: &mut Tally,
)
    requires { (n ≤ 400) × (m ≤ 17600) }
{
    let i = branch.i as u64;
    let ok = crossings(row, n) == stored_crossings(book, m, i);
    cases::count(tally, record::CHECKS, record::CROSSINGS, ok);
    for j in 0..m {
        if record::word(book, j, record::COMPONENT) == i {
            let is = place::right(branch, n, row, book, j);
            cases::count(tally, record::CHECKS, record::PLACES, is);
        }
    }
}

fn check_components(
    fixed: &Fixed,
    n: usize,
    samples: &[Sample],
    book: &[u8; 1830400],
    m: usize,
    tally: &mut Tally,
)
    requires { (n ≤ 400) × (m ≤ 17600) }
{
    for i in 0..4u8 {
        let branch = Branch { fixed: *fixed, i };
        let row = Row::Grid(Column { samples, i });
        check_places(&branch, n, row, book, m, tally);
    }
}

// The rows' pairs, one after the other.
fn list(fixed: &Fixed, n: usize, samples: &[Sample], list: &mut LentPairs, rows: &mut [u64; 17600])
    requires { n ≤ 400 }
{
    for i in 0..4u8 {
        let branch = Branch { fixed: *fixed, i };
        let row = Row::Grid(Column { samples, i });
        rows::component(&branch, n, row, list, rows);
    }
}

// They are the whole list, and their evaluations and the grid's are all.
fn check_list(
    head: &[u8; 432],
    fixed: &Fixed,
    n: usize,
    samples: &[Sample],
    book: &[u8; 1830400],
    m: usize,
    evals: u64,
    tally: &mut Tally,
)
    requires { (n ≤ 400) × (m ≤ 17600) }
{
    let mut angles = [0.0; 17600];
    let mut components = [0; 17600];
    let mut pairs = LentPairs::new(&mut angles, &mut components);
    let mut rows = [0u64; 17600];
    pairs.evals = evals;
    list(fixed, n, samples, &mut pairs, &mut rows);
    let ok = record::counts(head, pairs.pairs as u64, pairs.evals);
    cases::count(tally, record::CHECKS, record::PARTS, ok);
    check_rows(book, m, &angles, &components, &rows, tally);
}

fn fixed(head: &[u8; 432]) -> Fixed {
    Fixed::new(
        record::arm(head),
        record::rotation(head),
        record::place(head),
    )
}

pub(crate) fn check(head: &[u8; 432], book: &[u8; 1830400], n: usize, m: usize, tally: &mut Tally)
    requires { (n ≤ 400) × (m ≤ 17600) }
{
    let from = fixed(head);
    let mut samples = [Sample::default(); 401];
    let evals = search::sample_grid(&from, n, &mut samples);
    check_list(head, &from, n, &samples, book, m, evals, tally);
    check_components(&from, n, &samples, book, m, tally);
}
