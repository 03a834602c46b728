// Denoising: a 3 × 3 majority of the old picture, a byte of eight pixels at a time.
#![tactic(auto)]

ghost use Rattle.std.specs.Prelude.{◌≡◌, true, ℕ, ◌+◌, ◌-◌, ◌*◌, ◌/◌, ◌%◌, ◌^◌, ◌≤◌, ◌<◌, length};
ghost use Rattle.lists.specs.Lists.{filled};
ghost use Rattle.lcr_core.specs.Outcome.{number_of};
ghost use Rattle.lcr_core.specs.Passed.{Sides};
ghost use Rattle.binary.specs.Binary.{bit, word, byte_of, bytes_of};
ghost use Rattle.denoise.specs.Denoise.{denoised_refusal, inside, denoised_at, denoised_written};
ghost use Rattle.denoise.specs.Window.{behind_pad, majority_of, chosen_at, pad_of, up_of, mid_of, down_of, TwoBytes, ThreeBytes, voted_at};

use binary::picture::LentBits;
use binary::refusal::short_bits;
use lcr_core::{Refusal, check_sides};

// What denoising refuses of `len` bytes of bits, with `room` bytes for the result.
pub fn check_denoised_lengths(
    len: usize,
    width: u32,
    height: u32,
    room: usize,
) -> Result<(), Refusal>
    ensures { number_of result ≡ denoised_refusal len width height room }
{
    check_sides(width, height)?;
    if short_bits(len, width, height) {
        return Err(Refusal::ShortPicture);
    }
    if short_bits(room, width, height) {
        return Err(Refusal::ShortOutput);
    }
    Ok(())
}

// What it refuses of bits that are lent.
pub fn check_denoised(bits: LentBits<'_>, room: usize) -> Result<(), Refusal>
    ensures { let p = bits.entry in number_of result ≡ denoised_refusal (length p.bits.now) p.width p.height room }
{
    check_denoised_lengths(bits.bits.len(), bits.width, bits.height, room)
}

// Three bytes, of which the pixels after the tenth from pixel `first` on are cut off.
fn ten_pixels(three: u32, first: usize) -> u32
    ensures { result ≡ three / 2 ^ (14 - first % 8) }
{
    three >> (14 - first % 8)
}

// 1 where five or more are dark of the nine pixels that have `right` others to their right.
#[tactic(auto, unfolding(binary::specs::Binary::bit))]
fn majority(above: u32, row: u32, below: u32, right: u32) -> u8
    requires { right ≤ 7 }
    ensures bit { result ≡ bit (majority_of above row below right) }
    ensures small { result ≤ 1 }
{
    let window = (above >> right) % 8 * 64 + (row >> right) % 8 * 8 + (below >> right) % 8;
    u8::from(5 <= u16::count_ones(window as u16))
}

// The majorities about eight pixels, from ten of each row.
#[tactic(auto, unfolding(binary::specs::Binary::word))]
fn majorities(above: u32, row: u32, below: u32) -> u8
    ensures { result ≡ word (λ i. majority_of above row below (7 - i)) 0 8 }
{
    majority(above, row, below, 7) * 128
        + majority(above, row, below, 6) * 64
        + majority(above, row, below, 5) * 32
        + majority(above, row, below, 4) * 16
        + majority(above, row, below, 3) * 8
        + majority(above, row, below, 2) * 4
        + majority(above, row, below, 1) * 2
        + majority(above, row, below, 0)
}

// The bytes at hand of the rows above, through and below a pixel. The last two of each are needed again for the next eight pixels.
#[derive(Clone, Copy)]
struct Rows {
    above: u32,
    row: u32,
    below: u32,
}

// A picture that passed the checks.
#[derive(Clone, Copy)]
struct WholeBits<'a> {
    bits: &'a [u8],
    width: u32,
    height: u32,
    ghost sides: { Sides width height },
    ghost bytes: { bytes_of (width * height) ≤ length bits.now },
}

impl WholeBits<'_> {
    // So many light bytes stand in front of it: behind them every pixel has a row above.
    fn pad(self) -> usize
        ensures { result ≡ pad_of self.entry.width }
    {
        (self.width as usize + 8) / 8
    }

    // Behind them, the number of the pixel above and left of pixel 0, with which the upper row of its nine begins.
    fn up(self) -> usize
        ensures { result ≡ up_of self.entry.width }
    {
        self.pad() * 8 - self.width as usize - 1
    }

    // That of the pixel left of it, with which the middle row begins.
    fn mid(self) -> usize
        ensures { result ≡ mid_of self.entry.width }
    {
        self.pad() * 8 - 1
    }

    // That of the pixel below and left of it, with which the lower row begins.
    fn down(self) -> usize
        ensures { result ≡ down_of self.entry.width }
    {
        self.pad() * 8 + self.width as usize - 1
    }

    // Byte i of the picture behind the light bytes; after its last byte all is light again.
    #[tactic(auto, using(crate::proofs::Windows::byte_steps))]
    fn byte(self, i: usize) -> u32
        ensures { result ≡ byte_of (behind_pad (pad_of self.entry.width) self.entry.bits.now) i }
    {
        let pad = self.pad();
        if i < pad {
            return 0;
        }
        if self.bits.len() <= i - pad {
            return 0;
        }
        self.bits[i - pad] as u32
    }

    // Bytes i and i + 1 of it.
    #[tactic(auto, using(crate::proofs::Windows::byte_small, crate::proofs::Windows::two_bytes))]
    fn two_bytes(self, i: usize) -> u32
        requires { i < 2 ^ 32 }
        ensures { result ≡ word (behind_pad (pad_of self.entry.width) self.entry.bits.now) (i * 8) 16 }
    {
        self.byte(i) * 256 + self.byte(i + 1)
    }

    // Bytes i to i + 2 of it, of which the first two are at hand.
    #[tactic(auto, using(crate::proofs::Windows::byte_small, crate::proofs::Windows::three_bytes_lem, crate::proofs::Windows::last_two))]
    fn three_bytes(self, i: usize, two: u32) -> u32
        requires { (i < 2 ^ 32) × (two % 65536 ≡ word (behind_pad (pad_of self.width) self.bits.now) (i * 8) 16) }
        ensures three { result ≡ word (behind_pad (pad_of self.entry.width) self.entry.bits.now) (i * 8) 24 }
        ensures next { result % 65536 ≡ word (behind_pad (pad_of self.entry.width) self.entry.bits.now) ((i + 1) * 8) 16 }
    {
        two % 65536 * 256 + self.byte(i + 2)
    }

    // Two bytes of each row, before the first eight pixels.
    #[tactic(auto, using(crate::proofs::Windows::read_two))]
    fn first_rows(self) -> Rows
        ensures { TwoBytes self.entry.bits.now self.entry.width 0 result }
    {
        let above = self.two_bytes(self.up() / 8);
        let row = self.two_bytes(self.mid() / 8);
        let below = self.two_bytes(self.down() / 8);
        Rows { above, row, below }
    }

    // Three bytes of each row, for the pixels of byte j.
    #[tactic(auto, using(crate::proofs::Windows::next_steps))]
    fn next_rows(self, j: usize, rows: Rows) -> Rows
        requires { (j ≤ 16777216) × TwoBytes self.bits.now self.width j rows }
        ensures held { ThreeBytes self.entry.bits.now self.entry.width j result }
        ensures ready { TwoBytes self.entry.bits.now self.entry.width (j + 1) result }
    {
        let above = self.three_bytes(j + self.up() / 8, rows.above);
        let row = self.three_bytes(j + self.mid() / 8, rows.row);
        let below = self.three_bytes(j + self.down() / 8, rows.below);
        Rows { above, row, below }
    }

    // The majorities about the pixels of a byte whose rows are at hand.
    fn voted_byte(self, rows: Rows) -> u8
        ensures { result ≡ word (voted_at self.entry.width rows) 0 8 }
    {
        let above = ten_pixels(rows.above, self.up());
        let row = ten_pixels(rows.row, self.mid());
        let below = ten_pixels(rows.below, self.down());
        majorities(above, row, below)
    }

    // Whether the pixel at x, y has a neighbour on each side. One test joined by `&&` makes denoising run 6 % more instructions.
    #[tactic(auto, unfolding(crate::specs::Denoise::inside))]
    fn is_inside(self, x: u32, y: u32) -> bool
        requires { (x < self.width) × (y < 2 ^ 31) }
        ensures { result ≡ inside self.entry.width self.entry.height x y }
    {
        if x == 0 {
            return false;
        }
        if self.width <= x + 1 {
            return false;
        }
        if y == 0 {
            return false;
        }
        y + 1 < self.height
    }

    // Whether this is known of all eight pixels from number n on: they stand in one row, and none of them in its first or last column.
    #[tactic(auto, using(crate::proofs::Windows::all_inside_lem))]
    fn all_inside(self, n: u32) -> bool
        requires { n ≤ 16777216 }
        ensures { let w = self.entry.width in result ≡ true → (i : ℕ) → i < 8 → inside w self.entry.height ((n + i) % w) ((n + i) / w) ≡ true }
    {
        let x = n % self.width;
        let y = n / self.width;
        0 < x && x + 8 < self.width && 0 < y && y + 1 < self.height
    }

    // Of eight pixels from number n on, those inside as voted and the others as copied.
    #[tactic(auto, using(crate::proofs::Windows::chosen_none, crate::proofs::Windows::chosen_more))]
    fn chosen_each(self, voted: u8, copied: u8, n: u32) -> u8
        requires { n ≤ 16777216 }
        ensures { result ≡ word (chosen_at voted copied self.entry.width self.entry.height n) 0 8 }
    {
        let mut byte: u8 = 0;
        for i in 0..8 {
            let from = if self.is_inside((n + i) % self.width, (n + i) / self.width) {
                voted
            } else {
                copied
            };
            byte = byte % 128 * 2 + (from >> (7 - i)) % 2;
        }
        byte
    }

    // The same, at once where all are inside.
    #[tactic(auto, using(crate::proofs::Windows::chosen_all))]
    fn chosen(self, voted: u8, copied: u8, n: u32) -> u8
        requires { n ≤ 16777216 }
        ensures { result ≡ word (chosen_at voted copied self.entry.width self.entry.height n) 0 8 }
    {
        if self.all_inside(n) {
            return voted;
        }
        self.chosen_each(voted, copied, n)
    }

    // All its bytes, denoised in one pass.
    #[tactic(auto, using(lists::proofs::Numbers::mul_bound, lists::proofs::Tabulate::filled_none))]
    fn denoise(self, out: &mut [u8])
        requires { bytes_of (self.width * self.height) ≤ length out.old }
        ensures { let p = self.entry in out.new ≡ filled (bytes_of (p.width * p.height)) (byte_of (denoised_at p.bits.now p.width p.height)) out.old }
    {
        let bytes = (self.width as usize * self.height as usize + 7) / 8;
        let mut rows = self.first_rows();
        for j in 0..bytes {
            rows = self.next_rows(j, rows);
            let voted = self.voted_byte(rows);
            out[j] = self.chosen(voted, self.bits[j], (j * 8) as u32);
        }
    }
}

// Denoises a picture of width × height pixels into the first bytes of out: each pixel inside takes the colour of most of the nine about it.
#[tactic(auto, using(crate::proofs::Votes::answer_steps), unfolding(crate::specs::Denoise::denoised_written))]
pub fn denoised(bits: LentBits<'_>, out: &mut [u8]) -> Result<(), Refusal>
    ensures number { let p = bits.entry in number_of result ≡ denoised_refusal (length p.bits.now) p.width p.height (length out.old) }
    ensures written { let p = bits.entry in out.new ≡ denoised_written p.bits.now p.width p.height out.old }
{
    check_denoised(bits, out.len())?;
    let whole = WholeBits {
        bits: bits.bits,
        width: bits.width,
        height: bits.height,
    };
    whole.denoise(out);
    Ok(())
}
