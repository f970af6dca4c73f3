// Reading and writing: the system is asked what progress.rt says, and progress.rt is told what it
// gave.
ghost use Rattle.std.specs.Prelude.{◌≡◌, ℕ, ◌+◌, ◌-◌, ◌≤◌, ◌<◌, ◌^◌, List, Option, Some, length, take, drop};
ghost use Rattle.std.specs.Io.KnownBytes.{Appends, Consumes, IsAtEnd};
ghost use Rattle.stream.specs.Standing.{count, next};
ghost use Rattle.stream.specs.Calls.{Served, Copied};
ghost use Rattle.stream.specs.Progress.{standing, Turned};

use crate::progress::{Ask, Run, hear};
use std::io;
use std::io::{Eprint, Read, Write};

// One read, to the rest of the block; the bytes before it stay. (A read is lent the rest of an
// array: a list of bounded length lends only what it holds.)
fn read_on<I: Read>(input: &mut I, block: &mut [u8], filled: usize) -> Option<usize>
    requires { filled ≤ length block.old }
    ensures result_in_bounds { filled + count result ≤ length block.old }
    ensures block_unchanged { take filled block.new ≡ take filled block.old }
    ensures block_len_unchanged { length block.new ≡ length block.old }
    ensures bytes { Consumes (I.remaining input.old) (I.remaining input.new) (take (count result) (drop filled block.new)) }
    ensures end { result ≡ Some 0 → filled < length block.old → IsAtEnd (I.remaining input.new) }
{
    let moved = input.read(&mut block[filled..]);
    hear(moved, &block[filled..])
}

// One write of the lines that are left.
fn write_on<O: Write>(output: &mut O, out: &[u8], written: usize) -> Option<usize>
    requires { written ≤ length out.now }
    ensures result_in_bounds { written + count result ≤ length out.now }
    ensures bytes { Appends (O.contents output.old) (O.contents output.new) (take (count result) (drop written out.now)) }
{
    let moved = output.write(&out[written..]);
    hear(moved, &out[written..])
}

// One read, and how the program goes on after it.
fn read_turn<I: Read>(input: &mut I, p: &mut Run)
    requires { (p.old.at.place + 1 < 2 ^ 64) × (next (standing p.old) ≡ Ask.Read) }
    ensures { (held : Option (List ℕ)) → Turned p.old p.new (I.remaining input.old) (I.remaining input.new) held held }
{
    let gave = read_on(input, &mut p.block, p.at.filled);
    p.after_read(gave);
}

// One write, and how the program goes on after it.
fn write_turn<O: Write>(output: &mut O, p: &mut Run)
    requires { next (standing p.old) ≡ Ask.Write }
    ensures { (left : Option (List ℕ)) → Turned p.old p.new left left (O.contents output.old) (O.contents output.new) }
{
    let gave = write_on(output, p.lines.out.as_slice(), p.at.written);
    p.after_write(gave);
}

// One call of the system, and how the program goes on after it.
fn turn<I: Read, O: Write>(input: &mut I, output: &mut O, p: &mut Run, ask: Ask)
    requires { (p.old.at.place + 1 < 2 ^ 64) × (ask ≡ next (standing p.old)) }
    ensures { Turned p.old p.new (I.remaining input.old) (I.remaining input.new) (O.contents output.old) (O.contents output.new) }
{
    match ask {
        Ask::Stop => {}
        Ask::Write => write_turn(output, p),
        Ask::Read => read_turn(input, p),
    }
}

// Calls until nothing more is asked. (No run comes to the last count.) What is written is the lines
// of what is read, or a beginning of them.
pub fn serve<I: Read, O: Write>(input: &mut I, output: &mut O, p: &mut Run)
    ensures served { Served (standing p.new) (2 ^ 64 - 2) }
    ensures copied { Copied (standing p.new) (I.remaining input.old) (I.remaining input.new) (O.contents output.old) (O.contents output.new) }
{
    p.start();
    for _calls in 0..u64::MAX - 1 {
        let ask = p.next();
        if let Ask::Stop = ask {
            return;
        }
        turn(input, output, p, ask);
    }
}

// A read or a write that failed is told: the lines then end early.
fn tell<E: Eprint>(errors: &E, p: &Run) -> io::Result<()> {
    if !p.at.failed {
        return Ok(());
    }
    if p.at.written < p.lines.out.len() {
        eprintln!(errors; "saihkeb: standard output could not be written")
    } else {
        eprintln!(errors; "saihkeb: standard input could not be read")
    }
}

// What fails may be the telling of a failure.
pub fn run(rt: &HostRuntime) -> io::Result<()> {
    let mut input = rt.stdin();
    let mut output = rt.stdout();
    let mut p = Run::new();
    serve(&mut input, &mut output, &mut p);
    tell(rt, &p)
}
