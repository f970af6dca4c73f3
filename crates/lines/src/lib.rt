// The lines of a block as bytes, made from the block, its place and the limits in force. (These are no
// struct: three functions take them, each from the one before, and it would be made for that alone.)
#![tactic(auto)]

ghost use Rattle.std.specs.Prelude.{◌≡◌, []};
ghost use Rattle.lines.specs.Lines.{pose_lines, limits_lines, lines};

use array_vec::ArrayVec;
use refusals::number_of;
use solve_block::solve_block;
pub use text::Buffer;
use text::{head, lines_of, shown};

// Room for the answers of a block, six angles and a flag each, and for its lines. (Angles and flags are
// two lists, as a caller in C lends them to the block call, which writes to these too.)
#[derive(Drop)]
pub struct Space {
    pub angles: [f64; 6144],
    pub flags: [u8; 1024],
    pub out: Buffer,
}

impl Space {
    pub fn new() -> Space
        ensures { result.out.items ≡ [] }
    {
        Space {
            angles: [0.0; 6144],
            flags: [0; 1024],
            out: ArrayVec::new(),
        }
    }
}

// The lines of a block that is no limits block.
fn pose_lines(bytes: &[u8], place: u64, limits: &[f64], space: &mut Space)
    ensures { space.new.out.items ≡ pose_lines bytes.now place limits.now }
{
    let s = solve_block(bytes, limits, &mut space.angles, &mut space.flags);
    let answers = s.answers as u64;
    let refusal = number_of(s.outcome);
    head(&mut space.out, place, refusal, answers, s.evals);
    lines_of(
        &mut space.out,
        &space.angles,
        &space.flags,
        shown(s.answers),
    );
}

// The line of a limits block that is refused; one that is accepted has none.
fn limits_lines(bytes: &[u8], place: u64, space: &mut Space)
    ensures { space.new.out.items ≡ limits_lines bytes.now place }
{
    if let Err(refusal) = limits_block::refusal(bytes) {
        head(&mut space.out, place, refusal.number(), 0, 0);
    } else {
        space.out.clear();
    }
}

// Leaves the lines of a block in `space.out`. What the space held before plays no part.
#[tactic(auto, unfolding(crate::specs::Lines::lines))]
pub fn lines(bytes: &[u8], place: u64, limits: &[f64], space: &mut Space)
    ensures { space.new.out.items ≡ lines bytes.now place limits.now }
{
    if limits_block::is_limits(bytes) {
        limits_lines(bytes, place, space);
    } else {
        pose_lines(bytes, place, limits, space);
    }
}
