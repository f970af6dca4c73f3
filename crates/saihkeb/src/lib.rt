// The library that a controller links: the solve call, the one-answer call, the block call, the
// limits block, the track call, the file of arms and forward kinematics for C and Rust
// (include/saihkeb.h is its manual). No call asks anything of its numbers or of its lists' lengths:
// each equals its definition on every input. A list is lent, so its pointer is never null; the
// header's functions of the short names take a null pointer too. A family is a number here: a caller in
// C hands one over, and whether it is a family is what refusal 4 tells.
#![tactic(auto)]

ghost use Rattle.std.specs.Prelude.{◌≡◌, ◌∷◌, []};
ghost use Rattle.std.proofs.lemmas.List.Edits.{sets};
ghost use Rattle.answers.specs.Answer.{six, byte};
ghost use Rattle.answers.specs.Rows.{room_of, written_of, flagged_of};
ghost use Rattle.answers.specs.Written.{room, written, flagged};
ghost use Rattle.solve.specs.Solve.{answers, solve};
ghost use Rattle.solve.specs.InNumbers.{in_numbers};
ghost use Rattle.solve_block.specs.SolveBlock.{solve_block, block_answers};
ghost use Rattle.track.specs.Sevens.{sevens};
ghost use Rattle.track.specs.Track.{track_answers, solve_track};
ghost use Rattle.arms.specs.Arm.{numbered, put, find, take_out, compact};
ghost use Rattle.arms.specs.File.{refusal, gives, after};
ghost use Rattle.limits_block.specs.LimitsBlock.{limits_refusal, in_force};
ghost use Rattle.one_answer.specs.OneAnswer.{one_of, solve_one};
ghost use Rattle.forward.specs.Forward.{forward_refusal, forward_pose};
ghost use Rattle.saihkeb.specs.Library.{counts_of};

use answers::Answer;
use one_answer::answer_or_zeros;
use refusals::{Refusal, number_of};
use solve::Solved;

// The refusal as the result; the number of answers and of evaluations to the counts.
fn report(s: Solved, counts: &mut [u64; 2]) -> u64
    ensures value { result ≡ (in_numbers s).refusal }
    ensures counts { counts.new ≡ sets counts.old 0 (counts_of (in_numbers s)) }
{
    counts[0] = s.answers as u64;
    counts[1] = s.evals;
    number_of(s.outcome)
}

// Document 01's solve call, within joint limits: twelve numbers or none. The refusal is the result; the
// number of answers inside the limits and the number of evaluations go to `counts`.
#[unsafe(no_mangle)]
pub extern "C" fn saihkeb_solve_lent(
    family: u64,
    n: u64,
    arm: &[f64],
    pose: &[f64],
    limits: &[f64],
    angles: &mut [f64],
    flags: &mut [u8],
    counts: &mut [u64; 2],
) -> u64
    ensures result { result ≡ (solve family n arm.now pose.now limits.now (room angles.old flags.old)).refusal }
    ensures angles { angles.new ≡ written (answers family n arm.now pose.now limits.now) angles.old flags.old }
    ensures flags { flags.new ≡ flagged (answers family n arm.now pose.now limits.now) angles.old flags.old }
    ensures counts { counts.new ≡ sets counts.old 0 (counts_of (solve family n arm.now pose.now limits.now (room angles.old flags.old))) }
{
    report(
        solve::solve(family, n, arm, pose, limits, angles, flags),
        counts,
    )
}

// The same for one block of 512 bytes, which is judged first: refusals 1 to 3.
#[unsafe(no_mangle)]
pub extern "C" fn saihkeb_solve_block_lent(
    block: &[u8],
    limits: &[f64],
    angles: &mut [f64],
    flags: &mut [u8],
    counts: &mut [u64; 2],
) -> u64
    ensures result { result ≡ (solve_block block.now limits.now (room angles.old flags.old)).refusal }
    ensures angles { angles.new ≡ written (block_answers block.now limits.now) angles.old flags.old }
    ensures flags { flags.new ≡ flagged (block_answers block.now limits.now) angles.old flags.old }
    ensures counts { counts.new ≡ sets counts.old 0 (counts_of (solve_block block.now limits.now (room angles.old flags.old))) }
{
    report(
        solve_block::solve_block(block, limits, angles, flags),
        counts,
    )
}

// The limits of a limits block: twelve numbers, which stay as they came where the block is refused.
#[unsafe(no_mangle)]
pub extern "C" fn saihkeb_limits_block_lent(block: &[u8], limits: &mut [f64; 12]) -> u64
    ensures result { result ≡ limits_refusal block.now }
    ensures limits { limits.new ≡ in_force block.now limits.old }
{
    number_of(limits_block::limits_block(block, limits))
}

// The answer of a one-answer call: its refusal as the result, its six angles and its flag.
// (Number by number: after a copy of the whole the contract did not close, which speaks of each place.)
fn tell(one: Result<Answer, Refusal>, angles: &mut [f64; 6], flag: &mut [u8; 1]) -> u64
    ensures result { result ≡ (one_of one).refusal }
    ensures angles { angles.new ≡ sets angles.old 0 (six (one_of one).answer) }
    ensures flag { flag.new ≡ sets flag.old 0 (byte (one_of one).answer ∷ []) }
{
    let q = answer_or_zeros(one);
    angles[0] = q.q1;
    angles[1] = q.q2;
    angles[2] = q.q3;
    angles[3] = q.q4;
    angles[4] = q.q5;
    angles[5] = q.q6;
    flag[0] = u8::from(q.is_ls);
    number_of(one)
}

// The first answer within the limits, or none.
#[unsafe(no_mangle)]
pub extern "C" fn saihkeb_solve_one_lent(
    family: u64,
    n: u64,
    arm: &[f64],
    pose: &[f64],
    limits: &[f64],
    angles: &mut [f64; 6],
    flag: &mut [u8; 1],
) -> u64
    ensures result { result ≡ (solve_one family n arm.now pose.now limits.now).refusal }
    ensures angles { angles.new ≡ sets angles.old 0 (six (solve_one family n arm.now pose.now limits.now).answer) }
    ensures flag { flag.new ≡ sets flag.old 0 (byte (solve_one family n arm.now pose.now limits.now).answer ∷ []) }
{
    tell(
        one_answer::solve_one(family, n, arm, pose, limits),
        angles,
        flag,
    )
}

// The track call: an arm of seven axes with one joint locked; an answer is seven angles.
#[unsafe(no_mangle)]
pub extern "C" fn saihkeb_solve_track_lent(
    family: u64,
    n: u64,
    arm: &[f64],
    joint: u64,
    angle: f64,
    pose: &[f64],
    angles: &mut [f64],
    flags: &mut [u8],
    counts: &mut [u64; 2],
) -> u64
    ensures result { result ≡ (solve_track family n arm.now joint angle pose.now (room_of (sevens joint angle) angles.old flags.old)).refusal }
    ensures angles { angles.new ≡ written_of (sevens joint angle) (track_answers family n arm.now joint angle pose.now) angles.old flags.old }
    ensures flags { flags.new ≡ flagged_of (sevens joint angle) (track_answers family n arm.now joint angle pose.now) angles.old flags.old }
    ensures counts { counts.new ≡ sets counts.old 0 (counts_of (solve_track family n arm.now joint angle pose.now (room_of (sevens joint angle) angles.old flags.old))) }
{
    report(
        track::solve_track(family, n, arm, joint, angle, pose, angles, flags),
        counts,
    )
}

// The file of arms: an arm is put into the first empty block of the buffer.
#[unsafe(no_mangle)]
pub extern "C" fn saihkeb_arms_put_lent(buffer: &mut [u8], number: u8, arm: &[f64]) -> u64
    ensures result { result ≡ refusal (put (numbered number arm.now)) buffer.old }
    ensures buffer { buffer.new ≡ after (put (numbered number arm.now)) buffer.old }
{
    number_of(arms::put(buffer, number, arm))
}

// The arm of a number, or 39 zeros where it is refused.
#[unsafe(no_mangle)]
pub extern "C" fn saihkeb_arms_find_lent(buffer: &[u8], number: u8, arm: &mut [f64; 39]) -> u64
    ensures result { result ≡ refusal (find number) buffer.now }
    ensures arm { arm.new ≡ (gives (find number) buffer.now).arm }
{
    match arms::find(buffer, number) {
        Ok(found) => {
            *arm = found;
            0
        }
        Err(refusal) => {
            *arm = [0.0; 39];
            refusal.number()
        }
    }
}

// The block of a number becomes zero.
#[unsafe(no_mangle)]
pub extern "C" fn saihkeb_arms_take_out_lent(buffer: &mut [u8], number: u8) -> u64
    ensures result { result ≡ refusal (take_out number) buffer.old }
    ensures buffer { buffer.new ≡ after (take_out number) buffer.old }
{
    number_of(arms::take_out(buffer, number))
}

// The held arms are moved to the front, and the blocks behind them become zero.
#[unsafe(no_mangle)]
pub extern "C" fn saihkeb_arms_compact_lent(buffer: &mut [u8]) -> u64
    ensures result { result ≡ refusal compact buffer.old }
    ensures buffer { buffer.new ≡ after compact buffer.old }
{
    number_of(arms::compact(buffer))
}

// The pose of six angles. A list of another length than 39, 6 or 12 is refused, and the pose's list
// is then left as it came.
#[unsafe(no_mangle)]
pub extern "C" fn saihkeb_forward_kinematics_lent(
    arm: &[f64],
    angles: &[f64],
    pose: &mut [f64],
) -> u64
    ensures result { result ≡ forward_refusal arm.now angles.now pose.old }
    ensures pose { pose.new ≡ forward_pose arm.now angles.now pose.old }
{
    number_of(forward::forward(arm, angles, pose))
}
