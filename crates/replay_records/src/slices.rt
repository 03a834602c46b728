// Parts of a record's payload, and the slices that a call is lent: filled by their places before it, answered by their length and hash.
// Each function takes a slice and a place in it: the places are docs/REPLAY.md's.
ghost use Rattle.std.specs.Prelude.{◌≡◌, ◌+◌, ◌^◌, ◌<◌, min, [], ◌∷◌, length, take, drop};
ghost use Rattle.lists.specs.Lists.{flat_map};
ghost use Rattle.little_endian.specs.Bytes.{put};
ghost use Rattle.replay_records.specs.Record.{length_at, lent_part, lendable_at, lent_bytes, hash_step, hash_of, slice_bytes};

// No payload and no lent slice is longer.
pub const LONGEST: usize = 262144;

// The first n bytes, or as many as there are.
pub fn front(s: &[u8], n: usize) -> &[u8]
    ensures { result.now ≡ take n s.now }
{
    s.get(..n).unwrap_or(s)
}

// What follows the first n bytes.
pub fn rest(s: &[u8], n: usize) -> &[u8]
    ensures { result.now ≡ drop n s.now }
{
    s.get(n..).unwrap_or(&[])
}

// The length of a lent slice, which a record has at a place.
fn length_at(p: &[u8], at: u32) -> usize
    ensures { result ≡ length_at p.now at }
{
    little_endian::get::<u32>(p, at) as usize
}

// Whether none of so many lengths of lent slices, from a place of a record on, is over the longest.
pub fn lendable(p: &[u8], at: u16, slices: u8) -> bool
    ensures { result ≡ lendable_at p.now at slices }
{
    (0..slices).all(|i| length_at(p, at as u32 + 4 * i as u32) <= LONGEST)
}

// A slice to lend to a call: as many bytes as a record says at a place, or as there are, filled. What s holds when it comes back is not said: the call
// writes to the lent part.
pub fn lent<'a>(s: &'a mut [u8], p: &[u8], at: u32) -> &'a mut [u8]
    ensures { result.now ≡ lent_bytes (min (length_at p.now at) (length s.old)) }
{
    let n = length_at(p, at).min(s.len());
    let part = &mut s[..n];
    fill(part);
    part
}

// What a lent slice holds before a call: its places modulo 251.
pub fn fill(s: &mut [u8])
    ensures { s.new ≡ lent_bytes (length s.old) }
{
    for (i, b) in s.iter_mut().enumerate() {
        *b = (i % 251) as u8;
    }
}

// One byte more of the hash, FNV-1a of 64 bits.
fn hashed(h: u64, b: u8) -> u64
    ensures { result ≡ hash_step h b }
{
    (h ^ b as u64).wrapping_mul(0x100_0000_01b3)
}

// The hash of a slice.
pub fn hash(s: &[u8]) -> u64
    ensures { result ≡ hash_of s.now }
{
    s.iter().fold(0xcbf2_9ce4_8422_2325, |h, b| hashed(h, *b))
}

// A lent slice as a call left it: its length and its hash.
#[tactic(auto, using(crate::proofs::SliceLaws::slice_is))]
fn put_slice(out: &mut [u8], at: u32, s: &[u8])
    requires { at < 2 ^ 17 }
    ensures { out.new ≡ put (slice_bytes s.now) at out.old }
{
    little_endian::put::<u32>(out, at, (s.len() % 4294967296) as u32);
    little_endian::put::<u64>(out, at + 4, hash(s));
}

// The same of the part of an array that was lent, whose length stands in a record at the place `from`.
fn put_part(out: &mut [u8], at: u32, a: &[u8; LONGEST], p: &[u8], from: u32)
    requires { at < 2 ^ 17 }
    ensures { out.new ≡ put (slice_bytes (lent_part p.now from a.now)) at out.old }
{
    put_slice(out, at, front(a, length_at(p, from)));
}

// The same at any place.
pub fn put_lent(out: &mut [u8], at: u16, a: &[u8; LONGEST], p: &[u8], from: u32)
    ensures { out.new ≡ put (slice_bytes (lent_part p.now from a.now)) at out.old }
{
    put_part(out, at as u32, a, p, from);
}

// The same of the five slices of block values, whose lengths stand one after the other from the place `from` on.
// They are five arrays and not one of five: a caller lends all five at once, and parts of one array that are lent together get no proof (tried).
#[tactic(auto, using(crate::proofs::SliceLaws::five_are))]
pub fn put_blocks(
    out: &mut [u8],
    at: u16,
    p: &[u8],
    from: u16,
    means: &[u8; LONGEST],
    least: &[u8; LONGEST],
    greatest: &[u8; LONGEST],
    edges: &[u8; LONGEST],
    nears: &[u8; LONGEST],
)
    ensures { out.new ≡ put (flat_map slice_bytes (lent_part p.now from means.now ∷ lent_part p.now (from + 4) least.now ∷ lent_part p.now (from + 8) greatest.now ∷ lent_part p.now (from + 12) edges.now ∷ lent_part p.now (from + 16) nears.now ∷ [])) at out.old }
{
    let o = at as u32;
    let f = from as u32;
    put_part(out, o, means, p, f);
    put_part(out, o + 12, least, p, f + 4);
    put_part(out, o + 24, greatest, p, f + 8);
    put_part(out, o + 36, edges, p, f + 12);
    put_part(out, o + 48, nears, p, f + 16);
}
