// The square root of an f32, by its bit pattern.
ghost use Rattle.std.specs.Prelude.{◌≡◌, ◌+◌, ◌*◌, ◌^◌, ◌≤◌, ◌<◌};
ghost use Rattle.std.specs.Float.Ieee as Ieee;
ghost use Rattle.std.specs.Float.{binary32};
ghost use Rattle.float.specs.Floats.{sqrt_units, sqrt_of};
ghost use Rattle.float.specs.Fields.{val};

use super::magnitude::{expo, sig};

// ⌊√n⌋, a binary digit at a time: 25 of them, where `u64::isqrt` has 32 and takes nearly twice as long.
fn isqrt(n: u64) -> u64
    requires { n < 2 ^ 50 }
    ensures { (result * result ≤ n) × (n < (result + 1) * (result + 1)) }
{
    let mut r: u64 = 0;
    for j in (0u32..25).rev() {
        let t = r + (1u64 << j);
        if t * t <= n {
            r = t;
        }
    }
    r
}

// The magnitude of the root of a magnitude that is finite and not 0. m * 2 ^ e smallest values have the root √(m * 2 ^ (e + 149)): m gets so
// many zeros that its root has 25 digits and an even exponent is left. The last of the 25 says how to round: a tie cannot be.
fn sqrt_mag(a: u32) -> u32
    requires a_nonzero { 0 < a }
    requires a_bound { a < 0x7f80_0000 }
    ensures { Ieee.of_bits binary32 result ≡ sqrt_units binary32 (val binary32 a * 2 ^ 149) }
{
    let m = sig::<0x80_0000>(a as u64);
    let z = m.leading_zeros() as u64 - 32;
    let t = expo::<0x80_0000>(a as u64) + 132 - z;
    let r = isqrt(m << (17 + z + t % 2));
    ((t / 2 + 1) * 0x80_0000 + (r + 1) / 2) as u32
}

pub fn sqrt_bits(b: u32) -> u32
    ensures { Ieee.of_bits binary32 result ≡ sqrt_of binary32 (Ieee.of_bits binary32 b) }
{
    if b % 0x8000_0000 == 0 {
        return b;
    }
    if b > 0x8000_0000 {
        return 0x7fc0_0000;
    }
    if b >= 0x7f80_0000 {
        return b;
    }
    sqrt_mag(b)
}
