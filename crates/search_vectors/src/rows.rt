// The parts of the search that scan one row of samples each, run one after the other: for a component the
// grid's, and then each edge's. Which of them added a pair is noted beside it.
ghost use Rattle.std.specs.Prelude.{◌<◌, ◌≤◌};

use search::LentPairs;
use search_error::Branch;
use search_pairs::Row;

const ROOM: usize = 17600;

const EVALS: u64 = 2000000;

// A list that is too long is a wrong one: it begins anew, and its number is wrong in the end.
fn within(list: &mut LentPairs)
    ensures { (list.new.pairs ≤ 17600) × (list.new.evals ≤ 2000000) }
{
    if list.pairs > ROOM || list.evals > EVALS {
        list.pairs = 0;
        list.evals = 0;
    }
}

fn set_row(rows: &mut [u64; 17600], j: usize, row: u64) {
    if j < ROOM {
        rows[j] = row;
    }
}

// The pairs from `from` to before `to` are the row's.
fn mark(rows: &mut [u64; 17600], from: usize, to: usize, row: u64) {
    for j in from..to {
        set_row(rows, j, row);
    }
}

fn grid(branch: &Branch, n: usize, row: Row, list: &mut LentPairs, rows: &mut [u64; 17600])
    requires { n ≤ 400 }
{
    within(list);
    let from = list.pairs;
    search::scan_runs(branch, row, n, list);
    mark(rows, from, list.pairs, 0);
}

fn edge(branch: &Branch, k: usize, row: Row, list: &mut LentPairs, rows: &mut [u64; 17600])
    requires { k < 400 }
{
    within(list);
    let from = list.pairs;
    search_edge::edge::edge_at(branch, row, k, list);
    mark(rows, from, list.pairs, k as u64 + 1);
}

// All rows of one component.
pub(crate) fn component(
    branch: &Branch,
    n: usize,
    row: Row,
    list: &mut LentPairs,
    rows: &mut [u64; 17600],
)
    requires { n ≤ 400 }
{
    grid(branch, n, row, list, rows);
    for k in 0..n {
        edge(branch, k, row, list, rows);
    }
}
