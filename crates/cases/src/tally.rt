// The counts of cases and of mismatches (specs/Tally.antt).
ghost use Rattle.std.specs.Prelude.{◌≡◌, ◌<◌, ◌≤◌, true, length, take};
ghost use Rattle.std.specs.Io.KnownBytes.{Consumes};
ghost use Rattle.cases.specs.Tally.{more, noted, noted_twice, counted, Read};

use std::io;
use std::io::{Print, Read};

const UNKNOWN: usize = 30;

const TOTAL: usize = 31;

// How many cases there were, and how many of them were mismatches.
#[derive(Clone, Copy, Default)]
pub struct Counts {
    pub cases: u64,
    pub mismatches: u64,
}

// The counts of each function, of what is no case of one, and of all: one list, since an entry is written
// and printed in the same way whatever it counts.
pub type Tally = [Counts; 32];

// Before the first case.
pub fn no_cases() -> Tally {
    [Counts::default(); 32]
}

impl Counts {
    fn note(&mut self, ok: bool)
        ensures { self.new ≡ more self.old ok }
    {
        self.cases = self.cases.wrapping_add(1);
        if !ok {
            self.mismatches = self.mismatches.wrapping_add(1);
        }
    }
}

fn note(tally: &mut Tally, entry: usize, ok: bool)
    requires { entry < 32 }
    ensures { tally.new ≡ noted tally.old entry ok }
{
    tally[entry].note(ok);
}

fn note_twice(tally: &mut Tally, entry: usize, ok: bool)
    requires { entry < 31 }
    ensures { tally.new ≡ noted_twice tally.old entry ok }
{
    note(tally, TOTAL, ok);
    note(tally, entry, ok);
}

// Counts a case of the function id, right or not, where the group has n functions. An id that none
// of them has is a mismatch.
pub fn count(tally: &mut Tally, n: u64, id: u64, ok: bool)
    requires { n ≤ 30 }
    ensures { tally.new ≡ counted tally.old n id ok }
{
    if id < n {
        note_twice(tally, id as usize, ok);
        return;
    }
    note_twice(tally, UNKNOWN, false);
}

// Reads until the record is full, the input ends or a read fails, and returns how many bytes there
// are at its start: these, and no others, were read. (The contract of std's `read_exact` says little
// of a record that is not whole. A turn of the loop goes on by what a read gave, so nothing counts it.)
fn read_full<I: Read>(input: &mut I, bytes: &mut [u8]) -> usize
    ensures result_in_bounds { result ≤ length bytes.new }
    ensures consumed { Consumes (I.remaining input.old) (I.remaining input.new) (take result bytes.new) }
{
    let mut done: usize = 0;
    while done < bytes.len() {
        match input.read(&mut bytes[done..]) {
            Ok(0) | Err(_) => return done,
            Ok(n) => done += n,
        }
    }
    done
}

// Reads the next record, and answers whether there is a whole one, which is then what was read. A
// part of one at the end is a mismatch.
pub fn next<I: Read>(input: &mut I, bytes: &mut [u8], tally: &mut Tally) -> bool
    ensures counts { Read result tally.old tally.new }
    ensures whole { result ≡ true → Consumes (I.remaining input.old) (I.remaining input.new) bytes.new }
{
    let n = read_full(input, bytes);
    if n == bytes.len() {
        return true;
    }
    if n == 0 {
        return false;
    }
    note_twice(tally, UNKNOWN, false);
    false
}

// Writes the line of an entry: NAME cases C mismatches M. (A name is any bytes, and is written by itself.)
pub fn line<O: Print>(out: &O, name: &[u8], tally: &Tally, entry: usize) -> io::Result<()>
    requires { entry < 32 }
{
    out.write_all(name)?;
    let cases = tally[entry].cases;
    let mismatches = tally[entry].mismatches;
    println!(out; " cases {cases} mismatches {mismatches}")
}

// Writes the last lines: what was no case of a function, if anything, and the total.
pub fn end<O: Print>(out: &O, tally: &Tally) -> io::Result<()> {
    if tally[UNKNOWN].cases > 0 {
        line(out, b"unknown", tally, UNKNOWN)?;
    }
    line(out, b"total", tally, TOTAL)
}
