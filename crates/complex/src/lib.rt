// Complex numbers, as document 01 fixes num-complex's: each function equals its definition in
// specs/ on every input.
#![tactic(auto)]

ghost use Rattle.std.specs.Prelude.{◌≡◌};
ghost use Rattle.complex.specs.Complex.{◌+ᶜ◌, ◌-ᶜ◌, negᶜ, ◌*ᶜ◌, ◌/ᶜ◌, scaleᶜ, overᶜ, real, real_overᶜ, modulus, absᶜ, polar, sqrtᶜ, cbrtᶜ};

use std::ops::{Add, Div, Mul, Neg, Sub};

#[derive(Clone, Copy, Default)]
pub struct Complex {
    pub re: f64,
    pub im: f64,
}

// A real number, with the imaginary part 0.0.
impl From<f64> for Complex {
    ghost from_gives = { λ x z. z ≡ real x };

    fn from(x: f64) -> Complex {
        Complex { re: x, im: 0.0 }
    }
}

impl Add for Complex {
    type Output = Complex;

    ghost add_gives = { λ z w sum. sum ≡ z +ᶜ w };

    fn add(self, w: Complex) -> Complex {
        Complex {
            re: self.re + w.re,
            im: self.im + w.im,
        }
    }
}

impl Sub for Complex {
    type Output = Complex;

    ghost sub_gives = { λ z w difference. difference ≡ z -ᶜ w };

    fn sub(self, w: Complex) -> Complex {
        Complex {
            re: self.re - w.re,
            im: self.im - w.im,
        }
    }
}

impl Neg for Complex {
    type Output = Complex;

    ghost neg_gives = { λ z minus. minus ≡ negᶜ z };

    fn neg(self) -> Complex {
        Complex {
            re: -self.re,
            im: -self.im,
        }
    }
}

impl Mul for Complex {
    type Output = Complex;

    ghost mul_gives = { λ z w product. product ≡ z *ᶜ w };

    fn mul(self, w: Complex) -> Complex {
        Complex {
            re: self.re * w.re - self.im * w.im,
            im: self.re * w.im + self.im * w.re,
        }
    }
}

// By the conjugate, and by the sum of squares.
impl Div for Complex {
    type Output = Complex;

    ghost div_gives = { λ z w quotient. quotient ≡ z /ᶜ w };

    fn div(self, w: Complex) -> Complex {
        let s = w.re * w.re + w.im * w.im;
        let c = -w.im;
        Complex {
            re: (self.re * w.re - self.im * c) / s,
            im: (self.re * c + self.im * w.re) / s,
        }
    }
}

impl Mul<f64> for Complex {
    type Output = Complex;

    ghost mul_gives = { λ z s product. product ≡ scaleᶜ z s };

    fn mul(self, s: f64) -> Complex {
        Complex {
            re: self.re * s,
            im: self.im * s,
        }
    }
}

impl Div<f64> for Complex {
    type Output = Complex;

    ghost div_gives = { λ z s quotient. quotient ≡ overᶜ z s };

    fn div(self, s: f64) -> Complex {
        Complex {
            re: self.re / s,
            im: self.im / s,
        }
    }
}

impl Div<Complex> for f64 {
    type Output = Complex;

    ghost div_gives = { λ s z quotient. quotient ≡ real_overᶜ s z };

    fn div(self, z: Complex) -> Complex {
        Complex::from(self) / z
    }
}

// The modulus, of the sizes of the two parts: no square overflows or is lost beside the larger.
#[tactic(auto, unfolding(crate::specs::Complex::modulus))]
fn modulus(larger: f64, smaller: f64) -> f64
    ensures { result ≡ modulus larger smaller }
{
    if larger == 0.0 {
        return 0.0;
    }
    let q = smaller / larger;
    larger * float::sqrt(1.0 + q * q)
}

pub fn abs(z: Complex) -> f64
    ensures { result ≡ absᶜ z }
{
    if z.re.is_nan() {
        return z.re;
    }
    if z.im.is_nan() {
        return z.im;
    }
    let a = float::abs(z.re);
    let b = float::abs(z.im);
    if a < b {
        return modulus(b, a);
    }
    modulus(a, b)
}

// The number of modulus r at the angle theta.
fn polar(r: f64, theta: f64) -> Complex
    ensures { result ≡ polar r theta }
{
    let t = float::sin_cos(theta);
    Complex {
        re: r * t.cos,
        im: r * t.sin,
    }
}

pub fn sqrt(z: Complex) -> Complex
    ensures { result ≡ sqrtᶜ z }
{
    let theta = float::atan2(z.im, z.re);
    polar(float::sqrt(abs(z)), theta / 2.0)
}

pub fn cbrt(z: Complex) -> Complex
    ensures { result ≡ cbrtᶜ z }
{
    let theta = float::atan2(z.im, z.re);
    polar(float::cbrt(abs(z)), theta / 3.0)
}
