// The file of arms: a buffer of 512-byte blocks, judged block by block, and the four calls on it. Each
// public function equals its definition in specs/ on every input.
#![tactic(auto)]

ghost use Rattle.std.specs.Prelude.{◌≡◌, false, cond, [], ◌+◌, ◌*◌, ◌%◌, ◌≤◌, ◌<◌, length, get_or, take, drop, position, IfOk};
ghost use Rattle.std.specs.Float.{binary64};
ghost use Rattle.std.specs.Float.Ieee.{of_bits};
ghost use Rattle.float.specs.Number.{is_finite};
ghost use Rattle.refusals.specs.Judge.{all_finite};
ghost use Rattle.refusals.specs.Refusal.{number_of};
ghost use Rattle.words.specs.Words.{zeros};
ghost use Rattle.block.specs.Block.{arm};
ghost use Rattle.arms.specs.Arm.{numbered, holds, put_fault, put, find, take_out, compact, arm_or_zeros};
ghost use Rattle.arms.specs.File.{blocks, flat, number, rest, arms, block_fault, judge, eights, block_of, has, room, effect, refusal, gives, after};
ghost use Rattle.arms.specs.Agreement.{Valid};
ghost use Rattle.arms.specs.Port.{named, fault_by, Told, Moved, Fronted};

use block::{Block, check, damage};
use refusals::{Refusal, all_finite};
use words::{pattern, word, zeros};

// Whether the rest of an arm block is zero: bytes 1 to 7 of word 0, and words 40 to 62.
#[tactic(auto, unfolding(crate::specs::File::rest))]
fn rest(b: &[u8; 512]) -> bool
    ensures { result ≡ rest b.now }
{
    zeros(&b[1..8]) && zeros(&b[320..504])
}

// The first block with a number. Only the number is looked at.
fn place_of(blocks: &[[u8; 512]], n: u8) -> Option<usize>
    ensures { result ≡ position (named n) blocks.now }
{
    blocks.iter().position(|b| b[0] == n)
}

// Whether a word is the pattern of a finite number.
fn finite_word(word: u64) -> bool
    ensures { result ≡ is_finite (of_bits binary64 word) }
{
    word % 0x8000_0000_0000_0000 < 0x7ff0_0000_0000_0000
}

// Whether the arm of a block is finite. The words are tested where they stand, and no list is made.
fn finite(b: &[u8; 512]) -> bool
    ensures { result ≡ all_finite (arm b.now) }
{
    (1..40usize).all(|i| finite_word(word(b, i)))
}

// Blocks of which none is refused.
#[derive(Clone, Copy)]
struct Judged<'a> {
    blocks: &'a [[u8; 512]],
    ghost valid: { judge [] blocks.now ≡ 0 },
}

impl Judged<'_> {
    // The block that holds the arm of a number. In valid blocks 0 is the number of the empty ones alone.
    fn held_at(&self, n: u8) -> Option<usize>
        ensures { result ≡ position (has n) self.now.blocks.now }
    {
        if n == 0 {
            return None;
        }
        place_of(self.blocks, n)
    }

    fn held(&self, n: u8) -> bool
        ensures { result ≡ holds n (arms self.now.blocks.now) }
    {
        self.held_at(n).is_some()
    }

    // What an arm is refused for where these blocks hold arms already: 8, then 13. For an arm that is put
    // they are the buffer's, for the arm of a block those before it. A number that is not marked is new;
    // the others are looked for.
    #[tactic(auto, unfolding(crate::specs::Port::fault_by))]
    fn arm_fault(&self, number: u8, finite: bool, marked: bool) -> Result<(), Refusal>
        requires { Told marked number (arms self.now.blocks.now) }
        ensures { number_of result ≡ fault_by (arms self.now.blocks.now) number finite }
    {
        if !finite {
            return Err(Refusal::NotFinite);
        }
        if number == 0 || marked && self.held(number) {
            return Err(Refusal::ArmNumber);
        }
        Ok(())
    }

    // What a block behind these is refused for: nothing where it is empty, else 1 and 2 as any block, 3,
    // and then for its arm.
    #[tactic(auto, using(crate::proofs::Bytes::empty_fault), unfolding(crate::specs::File::block_fault, crate::specs::File::number, crate::specs::File::arm_of, crate::specs::Port::fault_by, crate::specs::Arm::arm_fault))]
    fn block_fault(&self, b: &[u8; 512], marked: bool) -> Result<(), Refusal>
        requires { Told marked (number b.now) (arms self.now.blocks.now) }
        ensures { number_of result ≡ block_fault (arms self.now.blocks.now) b.now }
    {
        if zeros(b) {
            return Ok(());
        }
        damage(b)?;
        if !rest(b) {
            return Err(Refusal::Reserved);
        }
        self.arm_fault(b[0], finite(b), marked)
    }

    // What an arm that is put is refused for, but for the room: 5, 8, 13.
    #[tactic(auto, unfolding(crate::specs::Port::fault_by, crate::specs::Arm::put_fault, crate::specs::Arm::arm_fault))]
    fn put_fault(&self, number: u8, arm: &[f64]) -> Result<(), Refusal>
        ensures { number_of result ≡ put_fault (arms self.now.blocks.now) (numbered number arm.now) }
    {
        if arm.len() != 39 {
            return Err(Refusal::ArmLength);
        }
        self.arm_fault(number, all_finite(arm), true)
    }
}

// The buffer judged, block by block: its blocks, or the first refusal. The numbers of the blocks before
// are marked, so that only a number that comes again is looked for.
fn judge(buffer: &[u8]) -> Result<Judged<'_>, Refusal>
    ensures refusal { number_of result ≡ judge [] (blocks buffer.now) }
    ensures whole { IfOk result (λ j. j.blocks.now ≡ blocks buffer.now) }
{
    let (blocks, short) = buffer.as_chunks::<512>();
    let mut seen = [false; 256];
    for (k, b) in blocks.iter().enumerate() {
        let n = b[0] as usize;
        let before = Judged {
            blocks: &blocks[..k],
        };
        before.block_fault(b, seen[n])?;
        seen[n] = true;
    }
    if !short.is_empty() {
        return Err(Refusal::ShortBlock);
    }
    Ok(Judged { blocks })
}

// Find: the arm of a number.
pub fn find(buffer: &[u8], number: u8) -> Result<[f64; 39], Refusal>
    ensures result { number_of result ≡ refusal (find number) buffer.now }
    ensures arm { arm_or_zeros result ≡ (gives (find number) buffer.now).arm }
{
    let judged = judge(buffer)?;
    match judged.held_at(number) {
        Some(k) => {
            let bytes = &judged.blocks[k];
            Ok(Block { bytes }.arm())
        }
        None => Err(Refusal::NotHeld),
    }
}

// Take out: the block of the number becomes zero.
pub fn take_out(buffer: &mut [u8], number: u8) -> Result<(), Refusal>
    ensures result { number_of result ≡ refusal (take_out number) buffer.old }
    ensures buffer { buffer.new ≡ after (take_out number) buffer.old }
{
    match judge(buffer)?.held_at(number) {
        Some(k) => {
            let at = 512 * k;
            buffer[at..at + 512].fill(0);
            Ok(())
        }
        None => Err(Refusal::NotHeld),
    }
}

// The 512 bytes from a place on are copied to a place that is not behind it.
fn move_down(b: &mut [u8], from: usize, to: usize)
    requires { (to ≤ from) × (from + 512 ≤ length b.old) }
    ensures { Moved from to b.old b.new }
{
    if to != from {
        b.copy_within(from..from + 512, to);
    }
}

// The held blocks are moved to the front, in their order; the result is the place behind them. In a
// valid buffer the empty blocks are those with the number 0. (Blocks are written as bytes, since std does
// not say what the bytes become that `as_chunks_mut` lends.)
fn to_front(buffer: &mut [u8]) -> usize
    requires { Valid buffer.old }
    ensures { Fronted result buffer.old buffer.new }
{
    let mut behind = 0;
    for k in 0..buffer.len() / 512 {
        let from = 512 * k;
        if buffer[from] != 0 {
            move_down(buffer, from, behind);
            behind += 512;
        }
    }
    behind
}

// Compact: the held arms to the front in their order, and zeros behind them.
pub fn compact(buffer: &mut [u8]) -> Result<(), Refusal>
    ensures result { number_of result ≡ refusal compact buffer.old }
    ensures buffer { buffer.new ≡ after compact buffer.old }
{
    judge(buffer)?;
    let behind = to_front(buffer);
    buffer[behind..].fill(0);
    Ok(())
}

// The bytes of numbers, eight for each, the least significant first.
fn put_numbers(b: &mut [u8], numbers: &[f64])
    requires { length b.old ≡ 8 * length numbers.now }
    ensures { b.new ≡ eights numbers.now }
{
    for (i, x) in numbers.iter().enumerate() {
        let at = 8 * i;
        b[at..at + 8].copy_from_slice(&pattern(*x).to_le_bytes());
    }
}

// The block of an arm.
fn put_block(b: &mut [u8], number: u8, arm: &[f64])
    requires { (length b.old ≡ 512) × (length arm.now ≡ 39) }
    ensures { b.new ≡ block_of (numbered number arm.now) }
{
    b.fill(0);
    b[0] = number;
    put_numbers(&mut b[8..320], arm);
    let sum = check(b);
    b[504..512].copy_from_slice(&sum.to_le_bytes());
}

// Put: the arm goes into the first empty block.
pub fn put(buffer: &mut [u8], number: u8, arm: &[f64]) -> Result<(), Refusal>
    ensures result { number_of result ≡ refusal (put (numbered number arm.now)) buffer.old }
    ensures buffer { buffer.new ≡ after (put (numbered number arm.now)) buffer.old }
{
    let judged = judge(buffer)?;
    judged.put_fault(number, arm)?;
    match place_of(judged.blocks, 0) {
        Some(k) => {
            let at = 512 * k;
            put_block(&mut buffer[at..at + 512], number, arm);
            Ok(())
        }
        None => Err(Refusal::FileFull),
    }
}
