// The bits of a picture whose blocks' means and marks are known, written in pixel order, each byte once.
ghost use Rattle.std.specs.Prelude.{◌≡◌, ℕ, ◌+◌, ◌*◌, ◌/◌, ◌^◌, ◌≤◌, ◌<◌, length, set, ltb};
ghost use Rattle.lists.specs.Lists.{filled, at};
ghost use Rattle.binary.specs.Binary.{bit, word, byte_of, bytes_of};
ghost use Rattle.binarize.specs.Writing.{rest_after, bytes_after};
ghost use Rattle.blocks.specs.Blocks.{blocks_in};
ghost use Rattle.binarize.specs.Levels.{window_level};
ghost use Rattle.binarize.specs.Binarize.{dark_by};
ghost use Rattle.binarize.specs.Splits.{Puts, rest_of_eight, byte_of_eight};

use super::blank::{flag_columns, level_by};
use super::grid::Grid;
use super::levels::global_level;
use blocks::Blocks;
use blocks::picture::GrayPicture;

// 1 where a gray value is below the level.
#[tactic(auto, using(crate::proofs::Eights::from_is))]
fn below(v: u8, level: u8) -> u8
    ensures { result ≡ bit (ltb v level) }
{
    u8::from(v < level)
}

// The levels of row y of blocks.
#[tactic(auto, using(lists::proofs::Tabulate::filled_none, lists::proofs::Tabulate::filled_step))]
fn row_levels(grid: Grid, y: usize, global: u8, levels: &mut [u8])
    requires { (y < grid.height) × (grid.width ≤ length levels.old) }
    ensures { let g = grid.entry in
        levels.new ≡ filled g.width (λ x. window_level (at g.means.now) (at g.edges.now) (at g.nears.now) g.width g.height x y global) levels.old }
{
    let mut flags = [0u8; 512];
    flag_columns(
        grid,
        y.saturating_sub(4),
        grid.height.min(y + 4 + 1),
        &mut flags,
    );
    for x in 0..grid.width {
        levels[x] = level_by(grid, x, y, global, &flags);
    }
}

// Eight pixels from number `from` on as a byte, the first highest: 1 where a gray value is below the level.
#[tactic(auto, using(crate::proofs::Eights::word_next, binary::proofs::Bits::bit_small), unfolding(binary::specs::Binary::word))]
fn eight_below(gray: &[u8], from: usize, level: u8) -> u8
    requires { from + 8 ≤ length gray.now }
    ensures { result ≡ word (λ k. ltb (at gray.now k) level) from 8 }
{
    let mut acc = 0;
    for i in 0..8 {
        acc = acc % 128 * 2 + below(gray[from + i], level);
    }
    acc
}

// Puts pixel number n into a picture that is written in order, and returns the bits that are not stored yet.
fn put_bit(out: &mut [u8], n: usize, acc: u8, b: u8) -> u8
    ensures rest { result ≡ rest_after n acc b }
    ensures bytes { out.new ≡ bytes_after n acc b out.old }
{
    let next = acc % 128 * 2 + b % 2;
    if n % 8 != 7 {
        return next;
    }
    if n / 8 < out.len() {
        out[n / 8] = next;
    }
    0
}

// A picture's bits, which are written in pixel order: those of the byte at hand are pending.
#[derive(Drop)]
struct Writer<'a> {
    bits: &'a mut [u8],
    pending: u8,
}

impl Writer<'_> {
    // Puts pixel number n.
    fn put(&mut self, n: usize, b: u8)
        ensures same { self.new.bits.ghost_name ≡ self.old.bits.ghost_name }
        ensures long { length self.new.bits.now ≡ length self.old.bits.now }
        ensures rest { self.new.pending ≡ rest_after n self.old.pending b }
        ensures bytes { self.new.bits.now ≡ bytes_after n self.old.pending b self.old.bits.now }
    {
        let pending = self.pending;
        self.pending = put_bit(self.bits, n, pending, b);
    }

    // Puts eight pixels, given as a byte, from number n on.
    fn put_eight(&mut self, n: usize, b: u8)
        requires { n / 8 < length self.old.bits.now }
        ensures same { self.new.bits.ghost_name ≡ self.old.bits.ghost_name }
        ensures long { length self.new.bits.now ≡ length self.old.bits.now }
        ensures rest { self.new.pending ≡ rest_of_eight n self.old.pending b }
        ensures bytes { self.new.bits.now ≡ set self.old.bits.now (n / 8) (byte_of_eight n self.old.pending b) }
    {
        let both = self.pending as u32 * 256 + b as u32;
        let s = n % 8;
        self.bits[n / 8] = ((both >> s) % 256) as u8;
        self.pending = (both % (1u32 << s)) as u8;
    }

    // Puts the pixels of a row of w pixels that fill whole blocks; the levels of the row's blocks stand in levels.
    fn put_blocks(&mut self, gray: &[u8], from: usize, w: usize, levels: &[u8])
        requires { (from + w ≤ length gray.now) × (w ≤ 8 * length levels.now) × (from + w ≤ 8 * length self.old.bits.now) }
        ensures { Puts from (from + w / 8 * 8) self.old self.new
            (λ p. (x : ℕ) → x < w → p (from + x) ≡ ltb (at gray.now (from + x)) (at levels.now (x / 8))) }
    {
        for j in 0..w / 8 {
            let b = eight_below(gray, from + j * 8, levels[j]);
            self.put_eight(from + j * 8, b);
        }
    }

    // Puts the pixels of a row of w pixels from column a on, one by one.
    fn put_pixels(&mut self, gray: &[u8], from: usize, a: usize, w: usize, levels: &[u8])
        requires { (a ≤ w) × (from + w ≤ length gray.now) × (w ≤ 8 * length levels.now) × (from + w ≤ 8 * length self.old.bits.now) }
        ensures { Puts (from + a) (from + w) self.old self.new
            (λ p. (x : ℕ) → x < w → p (from + x) ≡ ltb (at gray.now (from + x)) (at levels.now (x / 8))) }
    {
        for x in a..w {
            self.put(from + x, below(gray[from + x], levels[x / 8]));
        }
    }

    // Puts the unused bits, which are light.
    fn pad(&mut self, from: usize, to: usize)
        requires { (from ≤ to) × (to ≤ 8 * length self.old.bits.now) × (to < 2 ^ 32) }
        ensures { Puts from to self.old self.new (λ p. (k : ℕ) → from ≤ k → k < to → 0 ≡ bit (p k)) }
    {
        for n in from..to {
            self.put(n, 0);
        }
    }

    // Puts the rows y to z, which share their levels.
    fn put_rows(&mut self, picture: GrayPicture, y: usize, z: usize, levels: &[u8])
        requires { (y ≤ z) × (z ≤ picture.height) × (picture.width ≤ 8 * length levels.now) × (z * picture.width ≤ 8 * length self.old.bits.now) }
        ensures { let w = picture.entry.width in let gray = picture.entry.gray.now in
            Puts (y * w) (z * w) self.old self.new
            (λ p. (i x : ℕ) → y ≤ i → i < z → x < w → p (i * w + x) ≡ ltb (at gray (i * w + x)) (at levels.now (x / 8))) }
    {
        let w = picture.width;
        for i in y..z {
            self.put_blocks(picture.gray, i * w, w, levels);
            self.put_pixels(picture.gray, i * w, w / 8 * 8, w, levels);
        }
    }
}

// Puts all pixels.
pub fn put_picture(picture: GrayPicture, blocks: &Blocks<'_>, bits: &mut [u8])
    requires { let n = blocks_in picture.width picture.height in let b = blocks.now in
        (n ≤ length b.means.now) × (n ≤ length b.edges.now) × (n ≤ length b.nears.now) × (bytes_of (picture.width * picture.height) ≤ length bits.old) }
    ensures { let p = picture.entry in let b = blocks.now in bits.new ≡ filled (bytes_of (p.width * p.height))
        (byte_of (dark_by (at b.means.now) (at b.edges.now) (at b.nears.now) p.gray.now p.width p.height)) bits.old }
{
    let grid = Grid {
        means: blocks.means,
        edges: blocks.edges,
        nears: blocks.nears,
        width: picture.columns(),
        height: picture.rows(),
    };
    let global = global_level(grid);
    let mut levels = [0u8; 512];
    let mut writer = Writer { bits, pending: 0 };
    for y in 0..grid.height {
        row_levels(grid, y, global, &mut levels);
        writer.put_rows(picture, y * 8, picture.height.min(y * 8 + 8), &levels);
    }
    let n = picture.width * picture.height;
    writer.pad(n, (n + 7) / 8 * 8);
}
