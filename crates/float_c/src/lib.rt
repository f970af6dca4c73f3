// The scalar functions for a C or Rust caller: what tools/measure/bench_float.sh measures.
#![tactic(auto)]

ghost use Rattle.std.specs.Prelude.{◌≡◌};
ghost use Rattle.float.specs.Root.{sqrt, cbrt};
ghost use Rattle.float.specs.Sine.{sin, cos};
ghost use Rattle.float.specs.Arctangent.{atan2};
ghost use Rattle.float.specs.Num.{◌⊕◌};

#[unsafe(no_mangle)]
pub extern "C" fn bench_sqrt(x: f64) -> f64
    ensures { result ≡ sqrt x }
{
    float::sqrt(x)
}

#[unsafe(no_mangle)]
pub extern "C" fn bench_cbrt(x: f64) -> f64
    ensures { result ≡ cbrt x }
{
    float::cbrt(x)
}

// The sine and the cosine of one reduction, added: one number for a caller that takes one.
#[unsafe(no_mangle)]
pub extern "C" fn bench_sin_plus_cos(x: f64) -> f64
    ensures { result ≡ sin x ⊕ cos x }
{
    let both = float::sin_cos(x);
    both.sin + both.cos
}

#[unsafe(no_mangle)]
pub extern "C" fn bench_atan2(y: f64, x: f64) -> f64
    ensures { result ≡ atan2 y x }
{
    float::atan2(y, x)
}
