// Tests of two norms by their squares. A square root is taken only where the squares leave the
// answer open: roots of squares that are close come out close, and those of others do not.
#![tactic(auto)]

ghost use Rattle.std.specs.Prelude.{◌≡◌, true};
ghost use Rattle.std.specs.Float.Ieee.{lt};
ghost use Rattle.float.specs.Num.{◌⊖◌};
ghost use Rattle.float.specs.Number.{abs};
ghost use Rattle.float.specs.Root.{sqrt};
ghost use Rattle.norms.specs.Norms.{Near, Far, tolerance};

// 2^-42, 2^-21, 2^-20, 2^-17, 2^-7, 2^20 and 2^60.
const TWO_M42: f64 = 2.2737367544323206e-13;

const TWO_M21: f64 = 4.76837158203125e-7;

const TWO_M20: f64 = 9.5367431640625e-7;

const TWO_M17: f64 = 7.62939453125e-6;

const TWO_M7: f64 = 0.0078125;

const TWO_20: f64 = 1048576.0;

const TWO_60: f64 = 1152921504606846976.0;

// Whether it is plain that the roots come out at most 2^-20 apart.
#[tactic(auto, using(crate::proofs::RootGap::near_small, crate::proofs::RootGap::near_large))]
fn near(a: f64, b: f64) -> bool
    ensures { result ≡ true → Near a b }
{
    if !(a > 0.0 && b > 0.0) {
        return false;
    }
    if a < 1.0 {
        return float::abs(a - b) < TWO_M42;
    }
    a < TWO_60 && float::abs(a - b) < TWO_M21
}

// Whether it is plain that they come out at least 3 × 2^-21 apart.
#[tactic(auto, using(crate::proofs::RootGap::far_small, crate::proofs::RootGap::far_large))]
fn far(a: f64, b: f64) -> bool
    ensures { result ≡ true → Far a b }
{
    if !(a > 0.0 && b > 0.0 && b < TWO_60) {
        return false;
    }
    if a < 1.0 {
        return float::abs(a - b) > TWO_M17;
    }
    a < TWO_20 && float::abs(a - b) > TWO_M7
}

fn roots_differ(a: f64, b: f64, tolerance: f64) -> bool
    ensures { result ≡ lt tolerance (abs (sqrt a ⊖ sqrt b)) }
{
    float::abs(float::sqrt(a) - float::sqrt(b)) > tolerance
}

// Whether the norms whose squares are a and b differ by more than the tolerance.
#[tactic(auto, using(crate::proofs::RootGap::near_not_above))]
pub fn norms_differ(a: f64, b: f64, tolerance: f64) -> bool
    ensures { result ≡ lt tolerance (abs (sqrt a ⊖ sqrt b)) }
{
    if near(a, b) && tolerance >= TWO_M20 {
        return false;
    }
    roots_differ(a, b, tolerance)
}

// Whether they differ by less than 1e-6.
#[tactic(auto, using(crate::proofs::RootGap::near_below, crate::proofs::RootGap::far_not_below))]
pub fn norms_agree(a: f64, b: f64) -> bool
    ensures { result ≡ lt (abs (sqrt a ⊖ sqrt b)) tolerance }
{
    if far(a, b) {
        return false;
    }
    if near(a, b) {
        return true;
    }
    float::abs(float::sqrt(a) - float::sqrt(b)) < 1e-6
}
