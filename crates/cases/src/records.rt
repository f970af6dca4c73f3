// What a test program does besides the functions that it tries: it goes over its records and tells
// how many of them were right.
ghost use Rattle.std.specs.Prelude.{◌+◌, ◌≤◌, ◌<◌, length};

use crate::tally::{Tally, count, end, line, next, no_cases};
use std::io;
use std::io::{Print, Read};
use words::word;

// Counts each record by its first word, the id of a function. `judge` is asked whether the record's
// results are the port's; None passes over the record. (Input of any length: no run uses up the
// turns. The record is a slice, since a bound on a closure names no const parameter yet.)
fn count_all<I: Read, F: Fn(&[u8], u64) -> Option<bool>>(
    input: &mut I,
    record: &mut [u8],
    tally: &mut Tally,
    functions: u64,
    judge: F,
)
    requires callable { F.IsAlwaysCallable judge }
    requires word { 8 ≤ length record.old }
    requires few { functions ≤ 30 }
{
    for _ in 0..u64::MAX {
        if !next(input, record, tally) {
            return;
        }
        let id = word(record, 0);
        if let Some(ok) = judge(record, id) {
            count(tally, functions, id, ok);
        }
    }
}

// Writes the lines of the functions from the id `first` on, and the last lines.
pub fn report<O: Print>(out: &O, tally: &Tally, first: usize, names: &[&str]) -> io::Result<()>
    requires { first + length names.now ≤ 30 }
{
    for (i, name) in names.iter().enumerate() {
        line(out, name.as_bytes(), tally, first + i)?;
    }
    end(out, tally)
}

// A test program with space for a record, whose functions have these names, the first of them the
// id `first`.
pub fn run<F: Fn(&[u8], u64) -> Option<bool>>(
    rt: &HostRuntime,
    record: &mut [u8],
    first: usize,
    names: &[&str],
    judge: F,
) -> io::Result<()>
    requires callable { F.IsAlwaysCallable judge }
    requires word { 8 ≤ length record.old }
    requires few { first + length names.now ≤ 30 }
{
    let mut tally = no_cases();
    let functions = first + names.len();
    count_all(&mut rt.stdin(), record, &mut tally, functions as u64, judge);
    report(&rt.stdout(), &tally, first, names)
}
