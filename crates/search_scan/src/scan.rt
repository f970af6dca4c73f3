// scan_samples: sign changes and shallow dips along a row of finite samples, with touch = 0.5.
ghost use Rattle.std.specs.Prelude.{◌≡◌, ◌<◌, ◌≤◌, ◌+◌, ◌-◌, ◌^◌};
ghost use Rattle.std.specs.Float.{nan};
ghost use Rattle.search_definition.specs.Found.{Part, Place, Origin, component};
ghost use Rattle.search_definition.specs.Scan as Scan;
ghost use Rattle.search_definition.specs.Scan.{falls_to, falls_back, if_dip, item, last_dip, first_dip, scan_samples};
ghost use Rattle.search_error.specs.Fixed.{branch_error};
ghost use Rattle.search_refine.specs.Point.{point_of};
ghost use Rattle.search_pairs.specs.Row.{point, points};
ghost use Rattle.search_pairs.specs.State.{Roomy, state, afterwards};

use float::abs;
use search_dip::dip::minimise_dip;
use search_error::Branch;
use search_pairs::{LentPairs, Row};
use search_refine::Point;

const TOUCH: f64 = 0.5;

// One of two values is negative and one is not. A zero is not negative.
#[tactic(auto, unfolding(search_definition::specs::Scan::crosses, search_definition::specs::Scan::alike, search_definition::specs::Refine::negative))]
pub fn crosses(y0: f64, y1: f64) -> bool
    ensures { result ≡ Scan.crosses (point nan y0) (point nan y1) }
{
    (y0 < 0.0) != (y1 < 0.0)
}

// A dip that does not cross at the samples: a close root pair or a tangent root.
#[tactic(auto, unfolding(search_definition::specs::Scan::dips, search_definition::specs::Scan::alike, search_definition::specs::Refine::negative))]
pub fn dips(y0: f64, y1: f64, y2: f64) -> bool
    ensures { result ≡ Scan.dips (point nan y0) (point nan y1) (point nan y2) }
{
    abs(y1) < TOUCH && abs(y1) <= abs(y0) && abs(y1) < abs(y2) && (y0 < 0.0) == (y2 < 0.0)
}

// A row's end that is still falling may hide a dip between its last two samples.
#[tactic(auto, unfolding(search_definition::specs::Scan::falls_to, search_definition::specs::Scan::alike, search_definition::specs::Refine::negative))]
pub fn falls_to(y0: f64, y1: f64) -> bool
    ensures { result ≡ falls_to (point nan y0) (point nan y1) }
{
    (y0 < 0.0) == (y1 < 0.0) && abs(y1) < TOUCH && abs(y1) <= abs(y0)
}

#[tactic(auto, unfolding(search_definition::specs::Scan::falls_back, search_definition::specs::Scan::alike, search_definition::specs::Refine::negative))]
pub fn falls_back(y0: f64, y1: f64) -> bool
    ensures { result ≡ falls_back (point nan y0) (point nan y1) }
{
    (y0 < 0.0) == (y1 < 0.0) && abs(y0) < TOUCH && abs(y0) <= abs(y1)
}

// The dip between two samples, where the test held.
#[tactic(auto, using(crate::proofs::ScanSteps::dip_held, crate::proofs::ScanSteps::dip_not_held))]
pub fn dip_if(branch: &Branch, held: bool, a: Point, b: Point, list: &mut LentPairs)
    requires { Roomy 1000000 list.old }
    ensures { (o : Part → Origin) → ((h : Part) → component (o h) ≡ branch.now.i) → state list.new ≡ afterwards (state list.old) (if_dip (branch_error branch.now) held o (point_of a) (point_of b)) }
{
    if held {
        minimise_dip(branch, a, b, list);
    }
}

// What is found between the samples l and l + 1 of a row that ends before `end`.
pub fn scan_item(branch: &Branch, row: Row, l: usize, end: usize, list: &mut LentPairs)
    requires { (l + 1 < end) × Roomy 1000000 list.old }
    ensures { (o : Place → Origin) → ((p : Place) → component (o p) ≡ branch.now.i) → state list.new ≡ afterwards (state list.old) (item (branch_error branch.now) o (points row.entry) (end - (l + 2)) l) }
{
    let a = row.at(l);
    let b = row.at(l + 1);
    if crosses(a.y, b.y) {
        list.put_refined(branch, a, b);
    } else if l + 2 < end {
        let c = row.at(l + 2);
        dip_if(branch, dips(a.y, b.y, c.y), a, c, list);
    }
}

// A dip that goes on past the last sample, l + 1.
pub fn last_dip(branch: &Branch, row: Row, l: usize, list: &mut LentPairs)
    requires { Roomy 1000000 list.old }
    ensures { (o : Place → Origin) → ((p : Place) → component (o p) ≡ branch.now.i) → state list.new ≡ afterwards (state list.old) (last_dip (branch_error branch.now) o (points row.entry) l) }
{
    let a = row.at(l);
    let b = row.behind(l, 1);
    dip_if(branch, falls_to(a.y, b.y), a, b, list);
}

// A dip that comes from before the first sample, l. (Two functions, as the definition has them: they differ in
// the test alone, and one that is handed its test would be no shorter than the two.)
pub fn first_dip(branch: &Branch, row: Row, l: usize, list: &mut LentPairs)
    requires { Roomy 1000000 list.old }
    ensures { (o : Place → Origin) → ((p : Place) → component (o p) ≡ branch.now.i) → state list.new ≡ afterwards (state list.old) (first_dip (branch_error branch.now) o (points row.entry) l) }
{
    let a = row.at(l);
    let b = row.behind(l, 1);
    dip_if(branch, falls_back(a.y, b.y), a, b, list);
}

// What the m samples from s on add. The contract says it for every way o to name the places of a
// row, so that the grid and an edge can name their own; the state is the pairs listed so far and the
// evaluations, and the counts are so low that no counter overflows.
pub fn scan_samples(branch: &Branch, row: Row, s: usize, m: usize, list: &mut LentPairs)
    requires { (s + m < 2 ^ 64) × (m ≤ 401) × Roomy 900000 list.old }
    ensures { (o : Place → Origin) → ((p : Place) → component (o p) ≡ branch.now.i) → state list.new ≡ afterwards (state list.old) (scan_samples (branch_error branch.now) o (points row.entry) s m) }
{
    if m < 2 {
        return;
    }
    let end = s + m;
    for l in s..end - 1 {
        scan_item(branch, row, l, end, list);
    }
    last_dip(branch, row, end - 2, list);
    first_dip(branch, row, s, list);
}
