// The words of a search, and the numbers of the checks.
ghost use Rattle.std.specs.Prelude.{◌<◌};

use kinematics::Kinematics;
use linear::{Matrix3, Vector3};

// Before the pairs.
pub(crate) const N: usize = 0;

const ARM: usize = 1;

const POSE: usize = 40;

pub(crate) const PAIRS: usize = 52;

pub(crate) const EVALS: usize = 53;

// Of a pair. ROW is 0 for the grid's samples, and k + 1 for those towards the end of a branch between
// the grid's samples k and k + 1.
pub(crate) const Q1: usize = 0;

pub(crate) const COMPONENT: usize = 1;

pub(crate) const ROW: usize = 2;

pub(crate) const PLACE: usize = 3;

pub(crate) const INDEX: usize = 4;

pub(crate) const PART: usize = 5;

pub(crate) const ANSWER: usize = 6;

pub(crate) const FLAG: usize = 12;

// The checks' entries in the tally.
pub(crate) const SEARCHES: u64 = 0;

pub(crate) const PAIR: u64 = 1;

pub(crate) const PARTS: u64 = 2;

pub(crate) const ROWS: u64 = 3;

pub(crate) const PLACES: u64 = 4;

pub(crate) const CROSSINGS: u64 = 5;

pub(crate) const SOLVES: u64 = 6;

pub(crate) const ANSWERS: u64 = 7;

pub(crate) const CHECKS: u64 = 8;

pub(crate) fn arm_numbers(head: &[u8; 432]) -> [f64; 39] {
    let mut xs = [0.0; 39];
    cases::numbers(head, ARM, &mut xs);
    xs
}

pub(crate) fn pose_numbers(head: &[u8; 432]) -> [f64; 12] {
    let mut xs = [0.0; 12];
    cases::numbers(head, POSE, &mut xs);
    xs
}

pub(crate) fn arm(head: &[u8; 432]) -> Kinematics {
    let xs = arm_numbers(head);
    kinematics::from_numbers(&xs)
}

pub(crate) fn rotation(head: &[u8; 432]) -> Matrix3 {
    let xs = pose_numbers(head);
    kinematics::pose_rotation(&xs)
}

pub(crate) fn place(head: &[u8; 432]) -> Vector3 {
    let xs = pose_numbers(head);
    kinematics::pose_place(&xs)
}

// Whether these are the search's numbers of pairs and of evaluations.
pub(crate) fn counts(head: &[u8; 432], pairs: u64, evals: u64) -> bool {
    let is_pairs = cases::word(head, PAIRS) == pairs;
    let is_evals = cases::word(head, EVALS) == evals;
    is_pairs && is_evals
}

// Word w of pair j.
pub(crate) fn word(book: &[u8; 1830400], j: usize, w: usize) -> u64
    requires { (j < 17600) × (w < 13) }
{
    cases::word(book, 13 * j + w)
}

// Whether word w of pair j is x.
pub(crate) fn gives(book: &[u8; 1830400], j: usize, w: usize, x: f64) -> bool
    requires { (j < 17600) × (w < 13) }
{
    cases::gives(book, 13 * j + w, x)
}

// Whether pair j is (q1, i).
pub(crate) fn is_pair(book: &[u8; 1830400], j: usize, q1: f64, i: u8) -> bool
    requires { j < 17600 }
{
    let is_i = word(book, j, COMPONENT) == u64::from(i);
    is_i && gives(book, j, Q1, q1)
}

// Whether the answer of pair j has this flag.
pub(crate) fn is_flag(book: &[u8; 1830400], j: usize, flag: u8) -> bool
    requires { j < 17600 }
{
    word(book, j, FLAG) == u64::from(flag)
}
