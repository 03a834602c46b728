// The unsigned numbers that have up to eight bytes.
ghost use Rattle.std.specs.Prelude.{◌≡◌, ℕ, ◌%◌, ◌^◌, ◌≤◌};
ghost use Rattle.std.proofs.Common.{rules};

// A number of SIZE bytes, which u64 holds.
pub trait Unsigned: Copy {
    const SIZE: usize;

    ghost SIZE: { ℕ };

    ghost value: { Self → ℕ };

    // The number of n's SIZE lowest bytes.
    fn from_u64(n: u64) -> Self
        ensures { value result ≡ n % 256 ^ SIZE };

    fn to_u64(self) -> u64
        ensures { result ≡ value self };

    ghost eight_at_most: { SIZE ≤ 8 };
}

impl Unsigned for u8 {
    const SIZE: usize = 1;

    ghost SIZE = { 1 };

    ghost value = { λ x. x };

    fn from_u64(n: u64) -> u8 {
        (n % 256) as u8
    }

    fn to_u64(self) -> u64 {
        self as u64
    }

    ghost eight_at_most = { Prim.search rules };
}

impl Unsigned for u16 {
    const SIZE: usize = 2;

    ghost SIZE = { 2 };

    ghost value = { λ x. x };

    fn from_u64(n: u64) -> u16 {
        (n % 65536) as u16
    }

    fn to_u64(self) -> u64 {
        self as u64
    }

    ghost eight_at_most = { Prim.search rules };
}

impl Unsigned for u32 {
    const SIZE: usize = 4;

    ghost SIZE = { 4 };

    ghost value = { λ x. x };

    fn from_u64(n: u64) -> u32 {
        (n % 4294967296) as u32
    }

    fn to_u64(self) -> u64 {
        self as u64
    }

    ghost eight_at_most = { Prim.search rules };
}

impl Unsigned for u64 {
    const SIZE: usize = 8;

    ghost SIZE = { 8 };

    ghost value = { λ x. x };

    fn from_u64(n: u64) -> u64 {
        n
    }

    fn to_u64(self) -> u64 {
        self
    }

    ghost eight_at_most = { Prim.search rules };
}
