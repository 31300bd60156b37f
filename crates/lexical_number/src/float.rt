//! Float types.

ghost use Rattle.std.specs.Prelude.{◌≡◌, ◌*◌, ◌^◌, ◌<◌, ◌≤◌, ◌↔◌, Bool, true, false, IfSome, IsNone, IsTrue, from_bits, is_nan, if◌then◌else◌};
ghost use Rattle.std.specs.Float as float;
ghost use Rattle.std.specs.Float.Ieee.{hid, neg, ones, round};
ghost use Rattle.lexical_number.specs.Float.{format_of, is_zero};

/// A float type.
pub trait Float: Copy {
    /// Whether the type is `f64`. Otherwise, it is `f32`.
    const DOUBLE: bool;

    ghost DOUBLE: { Bool };

    // The value as std's specifications have it.
    ghost value: { Self → float.Float };

    /// Returns the float with these bits, which are not those of a NaN.
    fn from_magnitude(bits: u64) -> Self
        requires { bits ≤ ones (format_of DOUBLE) * hid (format_of DOUBLE) }
        ensures { value result ≡ from_bits (format_of DOUBLE) bits };

    /// Returns the float with the value of an `f32`.
    fn from_single(single: f32) -> Self
        ensures { value result ≡ single };

    /// Returns the float with the other sign.
    fn negated(self) -> Self
        ensures { value result ≡ neg (value self) };

    /// Returns the bits, or `None` for NaN.
    fn bits(self) -> Option<u64>
        ensures none { IsNone result ↔ IsTrue (is_nan (value self)) }
        ensures value { IfSome result (λ bits. from_bits (format_of DOUBLE) bits ≡ value self) };

    /// Returns whether the float is infinite.
    fn is_infinite(self) -> bool
        ensures { result ≡ float.float_is_infinite (value self) };

    /// Returns whether the float is 0 or -0.
    fn is_zero(self) -> bool
        ensures { result ≡ is_zero (value self) };

    /// Returns `digits * 10 ^ scale`, or `digits / 10 ^ scale` if `over` is true, rounded once, if both numbers are floats.
    fn by_ten_to(digits: u64, scale: u64, over: bool) -> Option<Self>
        requires { 0 < digits }
        ensures { IfSome result (λ x. value x ≡ round (format_of DOUBLE) false (digits * 10 ^ (if over then 0 else scale))
            (10 ^ (if over then scale else 0))) };
}

// The powers of ten that are floats.
static TENS_F64: [f64; 23] = [
    1e0, 1e1, 1e2, 1e3, 1e4, 1e5, 1e6, 1e7, 1e8, 1e9, 1e10, 1e11, 1e12, 1e13, 1e14, 1e15, 1e16,
    1e17, 1e18, 1e19, 1e20, 1e21, 1e22,
];

static TENS_F32: [f32; 11] = [1e0, 1e1, 1e2, 1e3, 1e4, 1e5, 1e6, 1e7, 1e8, 1e9, 1e10];

impl Float for f64 {
    const DOUBLE: bool = true;

    ghost DOUBLE = { true };

    ghost value = { λ value. value };

    #[inline(always)]
    #[tactic(auto, using(crate::proofs::TenLemmas::patterns))]
    fn from_magnitude(bits: u64) -> f64 {
        f64::from_bits(bits)
    }

    #[inline(always)]
    fn from_single(single: f32) -> f64 {
        f64::from(single)
    }

    #[inline(always)]
    fn negated(self) -> f64 {
        -self
    }

    #[inline(always)]
    fn bits(self) -> Option<u64> {
        if self.is_nan() {
            None
        } else {
            Some(self.to_bits())
        }
    }

    #[inline(always)]
    fn is_infinite(self) -> bool {
        self.is_infinite()
    }

    #[inline(always)]
    #[tactic(auto, using(core::proofs::num::FloatSigns::zero_is))]
    fn is_zero(self) -> bool {
        self == 0.0
    }

    #[inline(always)]
    fn by_ten_to(digits: u64, scale: u64, over: bool) -> Option<f64> {
        if digits > 1 << 53 || scale > 22 {
            return None;
        }
        let (digits, power) = (digits as f64, TENS_F64[scale as usize]);
        Some(if over { digits / power } else { digits * power })
    }
}

impl Float for f32 {
    const DOUBLE: bool = false;

    ghost DOUBLE = { false };

    ghost value = { λ value. value };

    #[inline(always)]
    #[tactic(auto, using(crate::proofs::TenLemmas::patterns))]
    fn from_magnitude(bits: u64) -> f32 {
        f32::from_bits(bits as u32)
    }

    #[inline(always)]
    fn from_single(single: f32) -> f32 {
        single
    }

    #[inline(always)]
    fn negated(self) -> f32 {
        -self
    }

    #[inline(always)]
    fn bits(self) -> Option<u64> {
        if self.is_nan() {
            None
        } else {
            Some(self.to_bits() as u64)
        }
    }

    #[inline(always)]
    fn is_infinite(self) -> bool {
        self.is_infinite()
    }

    #[inline(always)]
    #[tactic(auto, using(core::proofs::num::FloatSigns::zero_is))]
    fn is_zero(self) -> bool {
        self == 0.0
    }

    #[inline(always)]
    fn by_ten_to(digits: u64, scale: u64, over: bool) -> Option<f32> {
        if digits > 1 << 24 || scale > 10 {
            return None;
        }
        let (digits, power) = (digits as f32, TENS_F32[scale as usize]);
        Some(if over { digits / power } else { digits * power })
    }
}
