// The block of the registers, at a card's first step.
ghost use Rattle.std.specs.Prelude.{◌≡◌};
ghost use Rattle.card.specs.Machine.{searches};

use refusals::judge;

// Whether a block is searched: it is not refused, and of family 6.
pub fn searches(bytes: &[u8]) -> bool
    ensures { result ≡ searches bytes.now }
{
    match block::refusal(bytes) {
        Err(_) => false,
        Ok(block) => {
            block.family() == 6 && judge(6, block.samples(), &block.arm(), &block.pose()).is_ok()
        }
    }
}
