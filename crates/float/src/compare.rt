// The order of two f32, by their bit patterns.
ghost use Rattle.std.specs.Prelude.{◌≡◌};
ghost use Rattle.std.specs.Float.Ieee as Ieee;
ghost use Rattle.std.specs.Float.{binary32};
ghost use Rattle.float.specs.Fields.{place_of};

// Where a pattern stands in the order of numbers, both zeros at 2^31.
fn place(n: u32) -> u32
    ensures { result ≡ place_of n }
{
    if n < 0x8000_0000 {
        0x8000_0000 + n % 0x8000_0000
    } else {
        0x8000_0000 - n % 0x8000_0000
    }
}

// Whether n is the pattern of a NaN: its magnitude is above the infinity's.
pub fn is_nan(n: u32) -> bool
    ensures { result ≡ Ieee.is_nan (Ieee.of_bits binary32 n) }
{
    n % 0x8000_0000 > 0x7f80_0000
}

// Whether the number of m is below that of n; false where one is a NaN.
pub fn below(m: u32, n: u32) -> bool
    ensures { result ≡ Ieee.lt (Ieee.of_bits binary32 m) (Ieee.of_bits binary32 n) }
{
    if is_nan(m) || is_nan(n) {
        return false;
    }
    place(m) < place(n)
}
