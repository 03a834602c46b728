// Numbers as bytes in a slice, the lowest first. Total: a byte beyond the slice reads as 0 and is not written.
#![tactic(auto)]

ghost use Rattle.std.specs.Prelude.{◌≡◌, get_or, set};
ghost use Rattle.little_endian.specs.Bytes.{bytes_le, read_le, put};

mod unsigned;

pub use unsigned::Unsigned;

fn byte(s: &[u8], at: usize) -> u8
    ensures { result ≡ get_or s.now at 0 }
{
    s.get(at).copied().unwrap_or(0)
}

fn set_byte(s: &mut [u8], at: usize, b: u8)
    ensures { s.new ≡ set s.old at b }
{
    if at < s.len() {
        s[at] = b;
    }
}

// The number at a place, its highest byte taken first.
pub fn get<T: Unsigned>(s: &[u8], at: u32) -> T
    ensures { T.value result ≡ read_le T.SIZE s.now at }
{
    let mut n = 0;
    for k in (0..T::SIZE).rev() {
        n = 256 * n + byte(s, at as usize + k) as u64;
    }
    T::from_u64(n)
}

// Writes a number at a place, its lowest byte first.
pub fn put<T: Unsigned>(s: &mut [u8], at: u32, v: T)
    ensures { s.new ≡ put (bytes_le T.SIZE (T.value v)) at s.old }
{
    let mut rest = v.to_u64();
    for k in 0..T::SIZE {
        set_byte(s, at as usize + k, (rest % 256) as u8);
        rest /= 256;
    }
}
