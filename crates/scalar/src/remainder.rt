// The remainder by TAU of a finite number from TAU on, in integer arithmetic.
ghost use Rattle.std.specs.Prelude.{◌≡◌, ◌+◌, ◌*◌, ◌%◌, ◌^◌, ◌≤◌, ◌<◌, true, false};
ghost use Rattle.std.specs.Float.{binary64, inf};
ghost use Rattle.std.specs.Float.Ieee.{lt, round};
ghost use Rattle.root.specs.Steps.{units_of};
ghost use Rattle.scalar.specs.Num.{tau};
ghost use Rattle.scalar.specs.Wrap.{rem_tau};
ghost use Rattle.scalar.specs.Digits.{tau_digits};

// TAU is so many times 2^-50.
const TAU_DIGITS: u64 = 0x19_21fb_5444_2d18;

// The remainder of m * 2^k, eleven binary places at a step.
fn rem_shifted(m: u64, k: u64) -> u64
    ensures { (result ≡ (m * 2 ^ k) % tau_digits) × (result < 2 ^ 53) }
{
    let mut r = m % TAU_DIGITS;
    for _ in 0..k / 11 {
        r = r * 2048 % TAU_DIGITS;
    }
    (r << (k % 11)) % TAU_DIGITS
}

// The remainder of the value of a pattern, in units of 2^-50, for a value that is 4 or more.
#[tactic(auto, using(crate::proofs::Fraction::units_rem))]
fn rem_bits(b: u64) -> u64
    requires { (1025 * 2 ^ 52 ≤ b) × (b < 2047 * 2 ^ 52) }
    ensures { (result * 2 ^ 1024 ≡ units_of b % (tau_digits * 2 ^ 1024)) × (result < 2 ^ 53) }
{
    let e = b / 0x10_0000_0000_0000;
    let m = b % 0x10_0000_0000_0000 + 0x10_0000_0000_0000;
    rem_shifted(m, e - 1025)
}

// r units of 2^-50, exactly.
#[tactic(auto, using(crate::proofs::Fraction::from_units_is))]
fn from_units(r: u64) -> f64
    requires { r < 2 ^ 53 }
    ensures { result ≡ round binary64 false r (2 ^ 50) }
{
    (r as f64) * 0.00000000000000088817841970012523233890533447265625
}

// The remainder of a finite x from TAU on.
pub fn rem_positive(x: f64) -> f64
    requires { (lt x tau ≡ false) × (lt x (inf false) ≡ true) }
    ensures { result ≡ rem_tau x }
{
    from_units(rem_bits(f64::to_bits(x)))
}
