// Compares the two-parallel search and family 6 with outside results. Standard input has searches as
// `oracle layout` has them: 54 words, which are n, the arm's 39 numbers, the pose's 12, the number of
// pairs and the evaluations; then 13 words for each pair: q1, the component, what added it as four
// words, and its answer. For each search it compares
// - the list of the search: the number of pairs, the evaluations, each pair in its order;
// - the search's parts, run one after the other: what added each pair is seen from outside;
// - the answers of family 6.
// tools/make/make_search_vectors.sh made the stored searches;
// tools/compare/compare_search.sh runs others.
#![tactic(auto)]

mod family;
mod list;
mod parts;
mod place;
mod record;
mod rows;

ghost use Rattle.std.specs.Prelude.{◌≤◌, length};

use cases::Tally;
use std::io;
use std::io::{Stdin, Stdout};

const MOST_PAIRS: u64 = 17600;

const MOST_SAMPLES: u64 = 400;

// The entries in the tally, as record.rt numbers them.
const NAMES: [&str; 8] = [
    "searches",
    "pairs",
    "parts",
    "rows",
    "places",
    "crossings",
    "solves",
    "answers",
];

// The most pairs and the most evaluations of one of the port's searches.
#[derive(Clone, Copy)]
struct Most {
    pairs: u64,
    evals: u64,
}

// All checks of one search, whose m pairs are in the book. (The book is a record's, with room for the most pairs
// that there can be: `oracle layout` has it, so it goes with a count.)
fn check_search(
    head: &[u8; 432],
    book: &[u8; 1830400],
    n: usize,
    m: usize,
    tally: &mut Tally,
    most: &mut Most,
)
    requires { (n ≤ 400) × (m ≤ 17600) }
{
    let f = list::check(head, book, n, m, tally);
    most.pairs = most.pairs.max(f.pairs);
    most.evals = most.evals.max(f.evals);
    parts::check(head, book, n, m, tally);
    family::check(head, book, n, m, tally);
}

// What is no search is a mismatch, and ends the run: where the next one begins is not known.
fn refuse(tally: &mut Tally) -> bool {
    cases::count(tally, record::CHECKS, record::CHECKS, false);
    false
}

// Reads the pairs of a search, which take so many bytes.
fn read_pairs(input: &mut Stdin, book: &mut [u8], end: usize, tally: &mut Tally) -> bool
    requires { end ≤ length book.old }
{
    cases::next(input, &mut book[0..end], tally)
}

// Checks one search, and answers whether there was a whole one.
fn check(input: &mut Stdin, book: &mut [u8; 1830400], tally: &mut Tally, most: &mut Most) -> bool {
    let mut head = [0u8; 432];
    if !cases::next(input, &mut head, tally) {
        return false;
    }
    let n = cases::word(&head, record::N);
    let m = cases::word(&head, record::PAIRS);
    if n > MOST_SAMPLES || m > MOST_PAIRS {
        return refuse(tally);
    }
    if !read_pairs(input, book, 104 * (m as usize), tally) {
        return refuse(tally);
    }
    check_search(&head, book, n as usize, m as usize, tally, most);
    true
}

// Input of any length: no run uses up the turns.
fn check_all(input: &mut Stdin, book: &mut [u8; 1830400], tally: &mut Tally, most: &mut Most) {
    for _ in 0..u64::MAX {
        if !check(input, book, tally, most) {
            return;
        }
    }
}

fn report_most(out: &Stdout, most: &Most) -> io::Result<()> {
    let pairs = most.pairs;
    let evals = most.evals;
    println!(out; "most pairs {pairs} evaluations {evals}")
}

fn main(rt: HostRuntime) -> io::Result<()> {
    let out = rt.stdout();
    let mut book = [0u8; 1830400];
    let mut tally = cases::no_cases();
    let mut most = Most { pairs: 0, evals: 0 };
    check_all(&mut rt.stdin(), &mut book, &mut tally, &mut most);
    cases::report(&out, &tally, 0, &NAMES)?;
    report_most(&out, &most)
}
