// search_1d_bracketed from -PI to PI: the grid's samples, and for each component the runs of its finite
// samples and the edges between a finite sample and one that is not.
ghost use Rattle.std.specs.Prelude.{◌≡◌, ◌<◌, ◌≤◌, ◌+◌, length};
ghost use Rattle.search_definition.specs.Search as Search;
ghost use Rattle.search_definition.specs.Search.{edges, runs, of_component, search_1d_bracketed};
ghost use Rattle.search_error.specs.Fixed.{branch_error, error_at};
ghost use Rattle.search.specs.State.{Roomy, column, points, emptied, state, afterwards};
ghost use Rattle.search.specs.Demand.{two_parallel_search};
ghost use Rattle.search.specs.Searched.{spaced, Gridded, of_components, Searched, search_within};

use float::{PI, is_finite};
use kinematics::Kinematics;
use linear::{Matrix3, Vector3};
use search_edge::edge::edge_at;
use search_error::{Branch, Fixed};
use search_pairs::{Column, LentPairs, Row, Sample};
use search_scan::scan::scan_samples;

// A run of finite samples is ended by one that is not finite, or by the grid's end.
pub fn scan_runs(branch: &Branch, row: Row, n: usize, list: &mut LentPairs)
    requires { (n ≤ 400) × Roomy 100000 list.old }
    ensures { state list.new ≡ afterwards (state list.old) (runs (branch_error branch.now) branch.now.i (points row.entry) (n + 1) 0 0) }
{
    let mut s = 0;
    for k in 0..n + 1 {
        if is_finite(row.at(k).y) {
            continue;
        }
        scan_samples(branch, row, s, k - s, list);
        s = k + 1;
    }
    scan_samples(branch, row, s, n + 1 - s, list);
}

pub fn scan_edges(branch: &Branch, row: Row, n: usize, list: &mut LentPairs)
    requires { (n ≤ 400) × Roomy 110000 list.old }
    ensures { state list.new ≡ afterwards (state list.old) (edges (branch_error branch.now) branch.now.i (points row.entry) n 0) }
{
    for k in 0..n {
        edge_at(branch, row, k, list);
    }
}

// The branch over its component of the grid's samples.
pub fn search_component(branch: &Branch, samples: &[Sample], n: usize, list: &mut LentPairs)
    requires { (n ≤ 400) × Roomy 100000 list.old }
    ensures { state list.new ≡ afterwards (state list.old) (of_component (branch_error branch.now) branch.now.i (column samples.now branch.now.i) n) }
{
    let row = Row::Grid(Column {
        samples,
        i: branch.i,
    });
    scan_runs(branch, row, n, list);
    scan_edges(branch, row, n, list);
}

// left + k * delta, with delta = (right - left) / n. The last angle is not set to PI.
pub fn angle(n: u32, k: u32) -> f64
    ensures { result ≡ spaced n k }
{
    -PI + (k as f64) * ((PI - -PI) / (n as f64))
}

// The grid's samples: n + 1 evaluations, which are returned.
pub fn sample_grid(fixed: &Fixed, n: usize, samples: &mut [Sample]) -> u64
    requires { (n ≤ 400) × (n < length samples.old) }
    ensures { (result ≡ n + 1) × Gridded (error_at fixed.now) n (n + 1) samples.new }
{
    for k in 0..n + 1 {
        let x = angle(n as u32, k as u32);
        samples[k] = Sample {
            x,
            y: fixed.error(x),
        };
    }
    n as u64 + 1
}

// The components one after the other.
pub fn search_components(fixed: &Fixed, n: usize, samples: &[Sample], list: &mut LentPairs)
    requires { (n ≤ 400) × Roomy 10000 list.old }
    ensures { state list.new ≡ afterwards (state list.old) (of_components (error_at fixed.now) n (column samples.now)) }
{
    for i in 0..4u8 {
        search_component(&Branch { fixed: *fixed, i }, samples, n, list);
    }
}

// The samples lie in a list of 401, which is filled up to n.
pub fn search_grid(fixed: &Fixed, n: usize, list: &mut LentPairs)
    requires { n ≤ 400 }
    ensures { state list.new ≡ afterwards (emptied (state list.old)) (search_1d_bracketed (error_at fixed.now) n) }
{
    let mut samples = [Sample::default(); 401];
    let evals = sample_grid(fixed, n, &mut samples);
    list.pairs = 0;
    list.evals = evals;
    search_components(fixed, n, &samples, list);
}

// The search over n + 1 samples, whatever was listed before. The lists have room for every pair if they are
// 44 * n long. An n above 400, for which the samples have no room, is not searched: no pair, no evaluation.
pub fn search_1d_bracketed(fixed: &Fixed, n: usize, list: &mut LentPairs)
    ensures { Searched (search_within (error_at fixed.now) n) list.old list.new }
{
    list.clear();
    if n <= 400 {
        search_grid(fixed, n, list);
    }
}

// The search of two_parallel for an arm and a pose.
pub fn search_two_parallel(
    kin: Kinematics,
    r_06: Matrix3,
    p_0t: Vector3,
    n: usize,
    list: &mut LentPairs,
)
    ensures { Searched (two_parallel_search kin r_06 p_0t n) list.old list.new }
{
    search_1d_bracketed(&Fixed::new(kin, r_06, p_0t), n, list);
}
