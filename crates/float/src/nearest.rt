// The f32 nearest to an f64, by their bit patterns.
ghost use Rattle.std.specs.Prelude.{◌≡◌, ◌^◌, ◌<◌};
ghost use Rattle.std.specs.Float.Ieee as Ieee;
ghost use Rattle.std.specs.Float.{binary32, binary64};
ghost use Rattle.std.specs.Float.Ieee.Nearest.{closest};
ghost use Rattle.float.specs.Floats.{narrow_of};
ghost use Rattle.float.specs.Fields.{val, round_mag};

use super::magnitude::{expo, sig};

// m / 2 ^ d to the nearest whole number, a tie to the even one.
fn nearest_shift(m: u64, d: u64) -> u64
    requires m_bound { m < 2 ^ 53 }
    requires d_nonzero { 0 < d }
    requires d_bound { d < 64 }
    ensures { result ≡ closest m (2 ^ d) }
{
    let h = 1u64 << (d - 1);
    (m + (m >> d) % 2 + h - 1) >> d
}

// The magnitude of the f32 nearest to that of an f64, which is m * 2 ^ e smallest values of f64. The smallest value of f32 is 2 ^ 925 of these, and an f32 keeps
// 24 of the 53 digits of m: from e = 925 - 29 = 896 on 29 digits are dropped; below it m / 2 ^ (925 - e) smallest values of f32 are nearest, which is nothing
// below e = 862, where 64 or more would be dropped.
fn narrow_mag(a: u64) -> u32
    requires { a < 2 ^ 63 }
    ensures { result ≡ round_mag binary32 (val binary64 a) (2 ^ 1074) }
{
    let m = sig::<0x10_0000_0000_0000>(a);
    let e = expo::<0x10_0000_0000_0000>(a);
    if e < 896 {
        if e < 862 {
            return 0;
        }
        return nearest_shift(m, 925 - e) as u32;
    }
    let n = (e - 896) * 0x80_0000 + nearest_shift(m, 29);
    if n < 0x7f80_0000 {
        n as u32
    } else {
        0x7f80_0000
    }
}

pub fn narrow_bits(b: u64) -> u32
    ensures { Ieee.of_bits binary32 result ≡ narrow_of (Ieee.of_bits binary64 b) }
{
    let a = b % 0x8000_0000_0000_0000;
    if a > 0x7ff0_0000_0000_0000 {
        return 0x7fc0_0000;
    }
    let m = narrow_mag(a);
    if b < 0x8000_0000_0000_0000 {
        m
    } else {
        0x8000_0000 + m
    }
}
