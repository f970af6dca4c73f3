// What the program makes of each call of the system: from the bytes that were read so far and the
// number that the call gave, what to print and how to go on.
ghost use Rattle.std.specs.Prelude.{◌≡◌, false, cond, ◌+◌, ◌≤◌, ◌<◌, ◌^◌, length, take, drop};
ghost use Rattle.limits_block.specs.LimitsBlock.{accepted, in_force};
ghost use Rattle.stream.specs.Standing.{numbers, start, full, received, closed, heard, count, next, after_write, after_read};

use limits_block::take_limits;
use lines::{Space, lines};
use std::io;

// Limits that are in force: twelve numbers.
pub type Limits = [f64; 12];

// How far the program is between two calls: of the block at `place` the first `filled` bytes were read; of
// the lines the first `written` bytes were written, and as long as there are more nothing is read. (No
// enum of states: `ended` and `failed` may each hold with lines still to be written.)
#[derive(Clone, Copy)]
pub struct Progress {
    pub place: u64,
    pub filled: usize,
    pub written: usize,
    pub ended: bool,
    pub failed: bool,
}

// A run of the program: how far it is, and what it holds. One run is made after another in the same,
// wherever it stood before.
#[derive(Drop)]
pub struct Run {
    pub at: Progress,
    pub block: [u8; 512],
    // those in force, where there are any
    pub limits: Option<Limits>,
    // space for the answers of a block and for their lines
    pub lines: Space,
    // a read asks for at least a byte
    pub ghost room_left: { at.filled < 512 },
    pub ghost in_order: { at.written ≤ length lines.out.items },
}

// Before the first call.
fn not_begun() -> Progress
    ensures { result ≡ record { place = 0; filled = 0; written = 0; ended = false; failed = false } }
{
    Progress {
        place: 0,
        filled: 0,
        written: 0,
        ended: false,
        failed: false,
    }
}

// What the program asks of the system next.
#[derive(Clone, Copy)]
pub enum Ask {
    Write,
    Read,
    Stop,
}

// What a call gave for a part: how many of its bytes were moved, or none where the call failed.
pub fn hear(moved: io::Result<usize>, part: &[u8]) -> Option<usize>
    ensures { result ≡ heard moved (length part.now) }
{
    match moved {
        Ok(n) => Some(n.min(part.len())),
        Err(_) => None,
    }
}

// The limits in force.
fn in_force(limits: &Option<Limits>) -> &[f64]
    ensures { result.now ≡ numbers limits.now }
{
    match limits {
        Some(list) => list,
        None => &[],
    }
}

// Whether a block brings limits that are accepted, which are in force from here. (`take_limits`
// writes over limits that are there; where there are none, there is no place to write to.)
fn accept(block: &[u8], limits: &mut Option<Limits>) -> bool
    ensures result { result ≡ accepted block.now }
    ensures limits { numbers limits.new ≡ in_force block.now (numbers limits.old) }
{
    let mut brought = [0.0; 12];
    let taken = take_limits(block, &mut brought);
    if taken {
        *limits = Some(brought);
    }
    taken
}

// The place of the block after one; limits that were accepted take none.
fn place_after(place: u64, accepted: bool) -> u64
    requires { place + 1 < 2 ^ 64 }
    ensures { result ≡ cond accepted place (place + 1) }
{
    if accepted { place } else { place + 1 }
}

// (That the next place fits its word stands in the contracts of a read, and in no type: it is so since
// a run counts its calls, and goes on by one place at most with each.)
impl Run {
    ghost use Rattle.stream.specs.Progress.{standing, Went};

    // Before the first call.
    pub fn new() -> Run
        ensures { standing result ≡ start }
    {
        Run {
            at: not_begun(),
            block: [0; 512],
            limits: None,
            lines: Space::new(),
        }
    }

    // The same again, after another run.
    pub fn start(&mut self)
        ensures { standing self.new ≡ start }
    {
        self.at = not_begun();
        self.limits = None;
        self.lines.out.clear();
    }

    // Lines are written before anything more is read; nothing is asked after a failure, nor at the
    // end.
    pub fn next(&self) -> Ask
        ensures { result ≡ next (standing self.now) }
    {
        if self.at.failed {
            return Ask::Stop;
        }
        if self.at.written < self.lines.out.len() {
            return Ask::Write;
        }
        if self.at.ended { Ask::Stop } else { Ask::Read }
    }

    // After a write; one that takes nothing has failed. (How much it took is asked of the caller, here and after a
    // read: std's calls promise it, and no type of theirs says it.)
    #[tactic(auto, using(crate::proofs::Took::took_is))]
    pub fn after_write(&mut self, gave: Option<usize>)
        requires { self.old.at.written + count gave ≤ length self.old.lines.out.items }
        ensures { Went (after_write (standing self.old) gave) self.new self.old.at.place }
    {
        let took = gave.unwrap_or(0);
        let left = self.lines.out.len() - self.at.written;
        prove!(took <= left);
        if took == 0 {
            self.at.failed = true;
        } else {
            self.at.written += took;
        }
    }

    // The input has ended: a block that was begun is a short last one.
    fn close(&mut self)
        ensures { Went (closed (standing self.old)) self.new self.old.at.place }
    {
        self.at.written = 0;
        self.at.ended = true;
        if self.at.filled == 0 {
            self.lines.out.clear();
        } else {
            let limits = in_force(&self.limits);
            lines(
                &self.block[..self.at.filled],
                self.at.place,
                limits,
                &mut self.lines,
            );
            self.at.filled = 0;
        }
    }

    // A block is full: its lines are to be written, and limits that it brings are in force from here.
    fn fill(&mut self)
        requires { self.old.at.place + 1 < 2 ^ 64 }
        ensures { Went (full (standing self.old) self.old.block) self.new self.old.at.place }
    {
        lines(
            &self.block,
            self.at.place,
            in_force(&self.limits),
            &mut self.lines,
        );
        let accepted = accept(&self.block, &mut self.limits);
        self.at.place = place_after(self.at.place, accepted);
        self.at.filled = 0;
        self.at.written = 0;
    }

    // n bytes more were read.
    fn take_in(&mut self, n: usize)
        requires { (self.old.at.filled + n ≤ 512) × (self.old.at.place + 1 < 2 ^ 64) }
        ensures { Went (received (standing self.old) (take n (drop self.old.at.filled self.old.block))) self.new self.old.at.place }
    {
        let filled = self.at.filled + n;
        if filled == 512 {
            return self.fill();
        }
        self.lines.out.clear();
        self.at.filled = filled;
        self.at.written = 0;
    }

    // After a read.
    pub fn after_read(&mut self, gave: Option<usize>)
        requires { (self.old.at.filled + count gave ≤ 512) × (self.old.at.place + 1 < 2 ^ 64) }
        ensures { Went (after_read (standing self.old) gave (drop self.old.at.filled self.old.block)) self.new self.old.at.place }
    {
        match gave {
            None => self.at.failed = true,
            Some(n) => {
                if n == 0 {
                    self.close();
                } else {
                    self.take_in(n);
                }
            }
        }
    }
}
