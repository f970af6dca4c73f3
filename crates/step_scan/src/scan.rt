// A run of a row of samples; t is its last sample but one. An item that ends with no evaluation is passed
// over. The pairs are of component i.
ghost use Rattle.std.specs.Prelude.{◌≡◌, List, [], ℕ, suc, ◌-◌};
ghost use Rattle.search_definition.specs.Found.{Place, Origin, component};
ghost use Rattle.search_steps.specs.Way.{over};
ghost use Rattle.search_steps.specs.ScanSteps as Steps;
ghost use Rattle.step_pairs.specs.Landed.{landed, came};
ghost use Rattle.step_pairs.specs.declared.Found as DeclaredFound;
ghost use Rattle.search_pairs.specs.Row.{points};
ghost use Rattle.step_scan.specs.State.{last_of, scan_of, item_way};

use crate::run::Run;
use array_vec::ArrayVec;
use search_pairs::Row;
use search_scan::scan::{crosses, dips, falls_back, falls_to};
use step_dip::dip::{Dip, dip_angle, dip_next};
use step_pairs::{Found, refined};
use step_refine::Refining;

// Between a sample and the next, or at an end of the run.
#[derive(Clone, Copy)]
pub enum Scan {
    Crossing(usize, Refining),
    Inner(usize, Dip),
    Last(Dip),
    First(Dip),
}

// What is found between l and l + 1.
pub fn item<const N: usize>(
    i: u8,
    row: Row,
    t: usize,
    l: usize,
    found: &mut ArrayVec<Found, N>,
) -> Option<Scan>
    ensures { (o : Place → Origin) → ((p : Place) → component (o p) ≡ i) → (s : ℕ) → came (scan_of t) found.new.items result ≡ landed N found.old.items (item_way o (points row.entry) s t (t - l) l (over [])) }
{
    let p = row.at(l);
    let q = row.behind(l, 1);
    if crosses(p.y, q.y) {
        return refined(i, step_refine::start(p, q), found).map(|r| Scan::Crossing(l, r));
    }
    if l < t {
        let r = row.behind(l, 2);
        if dips(p.y, q.y, r.y) {
            return Some(Scan::Inner(l, Dip::Opening));
        }
    }
    None
}

pub fn first_way(row: Row, run: Run) -> Option<Scan>
    ensures { (o : Place → Origin) (t room : ℕ) (h : List DeclaredFound.Found) → came (scan_of t) h result ≡ landed room h (Steps.first_way o (points row.entry) run.from t) }
{
    let s = run.from as usize;
    let p = row.at(s);
    let q = row.behind(s, 1);
    if falls_back(p.y, q.y) {
        return Some(Scan::First(Dip::Opening));
    }
    None
}

pub fn last_way(row: Row, run: Run) -> Option<Scan>
    ensures { (o : Place → Origin) (room : ℕ) (h : List DeclaredFound.Found) → came (scan_of (last_of run)) h result ≡ landed room h (Steps.last_way o (points row.entry) run.from (last_of run)) }
{
    let t = run.last_pair();
    let p = row.at(t);
    let q = row.behind(t, 1);
    if falls_to(p.y, q.y) {
        return Some(Scan::Last(Dip::Opening));
    }
    first_way(row, run)
}

// The pairs of neighbours behind the one from l to l + 1, then the last dip and the first.
pub fn items_after<const N: usize>(
    i: u8,
    row: Row,
    run: Run,
    l: usize,
    found: &mut ArrayVec<Found, N>,
) -> Option<Scan>
    ensures { (o : Place → Origin) → ((p : Place) → component (o p) ≡ i) → came (scan_of (last_of run)) found.new.items result ≡ landed N found.old.items (Steps.items_way o (points row.entry) run.from (last_of run) (last_of run - l) (suc l)) }
{
    let t = run.last_pair();
    for at in l..t {
        if let Some(z) = item(i, row, t, at + 1, found) {
            return Some(z);
        }
    }
    last_way(row, run)
}

// All of a run, up to the first evaluation.
pub fn scan_way<const N: usize>(
    i: u8,
    row: Row,
    run: Run,
    found: &mut ArrayVec<Found, N>,
) -> Option<Scan>
    ensures { (o : Place → Origin) → ((p : Place) → component (o p) ≡ i) → came (scan_of (last_of run)) found.new.items result ≡ landed N found.old.items (Steps.scan_way o (points row.entry) run.from run.count) }
{
    if run.count < 2 {
        return None;
    }
    let s = run.from as usize;
    match item(i, row, run.last_pair(), s, found) {
        Some(z) => Some(z),
        None => items_after(i, row, run, s, found),
    }
}

// The angle that a scan asks.
pub fn scan_angle(row: Row, run: Run, z: Scan) -> f64
    ensures { (o : Place → Origin) → result ≡ Steps.scan_angle o (points row.entry) run.from (last_of run) (scan_of (last_of run) z) }
{
    match z {
        Scan::Crossing(_, r) => r.at.next(),
        Scan::Inner(l, d) => dip_angle(row.at(l), row.behind(l, 2), d),
        Scan::Last(d) => {
            let t = run.last_pair();
            dip_angle(row.at(t), row.behind(t, 1), d)
        }
        Scan::First(d) => {
            let s = run.from as usize;
            dip_angle(row.at(s), row.behind(s, 1), d)
        }
    }
}

// What a scan comes to with the value y at the angle that it asks.
pub fn scan_next<const N: usize>(
    i: u8,
    row: Row,
    run: Run,
    z: Scan,
    y: f64,
    found: &mut ArrayVec<Found, N>,
) -> Option<Scan>
    ensures { (o : Place → Origin) → ((p : Place) → component (o p) ≡ i) → came (scan_of (last_of run)) found.new.items result ≡ landed N found.old.items (Steps.scan_next o (points row.entry) run.from (last_of run) (scan_of (last_of run) z) y) }
{
    match z {
        Scan::Crossing(l, r) => {
            match refined(i, step_refine::next(r, y), found) {
                Some(r) => Some(Scan::Crossing(l, r)),
                None => items_after(i, row, run, l, found),
            }
        }
        Scan::Inner(l, d) => {
            match dip_next(i, row.at(l), row.behind(l, 2), d, y, found) {
                Some(d) => Some(Scan::Inner(l, d)),
                None => items_after(i, row, run, l, found),
            }
        }
        Scan::Last(d) => {
            let t = run.last_pair();
            match dip_next(i, row.at(t), row.behind(t, 1), d, y, found) {
                Some(d) => Some(Scan::Last(d)),
                None => first_way(row, run),
            }
        }
        Scan::First(d) => {
            let s = run.from as usize;
            dip_next(i, row.at(s), row.behind(s, 1), d, y, found).map(|d| Scan::First(d))
        }
    }
}
