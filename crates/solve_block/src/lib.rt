// The block call: document 01's solve call for a block of 512 bytes.
#![tactic(auto)]

ghost use Rattle.std.specs.Prelude.{◌≡◌};
ghost use Rattle.answers.specs.Written.{room, written, flagged};
ghost use Rattle.solve.specs.InNumbers.{in_numbers};
ghost use Rattle.solve_block.specs.SolveBlock.{solve_block, block_answers};

use solve::{Solved, refuse, solve};

// Judges a block and solves it: refusals 1 to 3, or what the solve call gives.
pub fn solve_block(bytes: &[u8], limits: &[f64], angles: &mut [f64], flags: &mut [u8]) -> Solved
    ensures result { in_numbers result ≡ solve_block bytes.now limits.now (room angles.old flags.old) }
    ensures angles { angles.new ≡ written (block_answers bytes.now limits.now) angles.old flags.old }
    ensures flags { flags.new ≡ flagged (block_answers bytes.now limits.now) angles.old flags.old }
{
    match block::refusal(bytes) {
        Err(refusal) => refuse(refusal),
        Ok(block) => {
            let family = block.family();
            let n = block.samples();
            let arm = block.arm();
            let pose = block.pose();
            solve(family, n, &arm, &pose, limits, angles, flags)
        }
    }
}
