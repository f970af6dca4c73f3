// The limits block: what it is, its refusal and its twelve numbers, and what it does to the limits in
// force. Each function equals its definition in specs/, at any bytes or at any whole block.
#![tactic(auto)]

ghost use Rattle.std.specs.Prelude.{◌≡◌, IfOk};
ghost use Rattle.refusals.specs.Refusal.{number_of};
ghost use Rattle.limits_block.specs.LimitsBlock.{is_limits, limits, limits_reserved, limits_refusal, accepted, in_force};

use block::{Block, damage};
use limits::refusal_10;
use refusals::Refusal;
use words::{array_of, zeros};

// Whether byte 3 is 1. Bytes that end before it are no limits block, so this asks for no length.
pub fn is_limits(bytes: &[u8]) -> bool
    ensures { result ≡ is_limits bytes.now }
{
    bytes.get(3) == Some(&1)
}

// Whether byte 3 is 1 and everything else but the twelve numbers and the check is zero.
#[tactic(auto, unfolding(crate::specs::LimitsBlock::limits_reserved))]
fn reserved(block: &Block) -> bool
    ensures { result ≡ limits_reserved block.now.bytes.now }
{
    let bytes = block.bytes;
    is_limits(bytes) && zeros(&bytes[0..3]) && zeros(&bytes[4..8]) && zeros(&bytes[104..504])
}

// The twelve numbers.
pub fn limits(block: &Block) -> [f64; 12]
    ensures { result ≡ limits block.now.bytes.now }
{
    array_of(block.bytes, 1)
}

// The twelve numbers, or one of refusals 1, 2, 3 and 10: the first that applies.
#[tactic(auto, unfolding(crate::specs::LimitsBlock::limits_refusal))]
pub fn refusal(bytes: &[u8]) -> Result<[f64; 12], Refusal>
    ensures refusal { number_of result ≡ limits_refusal bytes.now }
    ensures limits { IfOk result (λ l. l ≡ limits bytes.now) }
{
    let block = damage(bytes)?;
    if !reserved(&block) {
        return Err(Refusal::Reserved);
    }
    let brought = limits(&block);
    refusal_10(&brought)?;
    Ok(brought)
}

// Reads a limits block into the limits in force. A refused one changes nothing.
#[tactic(auto, unfolding(crate::specs::LimitsBlock::in_force))]
pub fn limits_block(bytes: &[u8], limits: &mut [f64; 12]) -> Result<(), Refusal>
    ensures result { number_of result ≡ limits_refusal bytes.now }
    ensures limits { limits.new ≡ in_force bytes.now limits.old }
{
    *limits = refusal(bytes)?;
    Ok(())
}

// The same, for a reader of blocks of both kinds: whether the block was an accepted limits block.
// Byte 3 is looked at first, so that a pose block costs next to nothing here.
#[tactic(auto, using(crate::proofs::Accepted::another_block), unfolding(crate::specs::LimitsBlock::in_force))]
pub fn take_limits(bytes: &[u8], limits: &mut [f64; 12]) -> bool
    ensures result { result ≡ accepted bytes.now }
    ensures limits { limits.new ≡ in_force bytes.now limits.old }
{
    is_limits(bytes) && limits_block(bytes, limits).is_ok()
}
