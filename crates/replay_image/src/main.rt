// Runs calls from standard input and prints their answers, a line each (docs/REPLAY.md): records 16 to 18.
#![tactic(auto)]

use binary::picture::LentBits;
use blocks::Blocks;
use blocks::picture::LentGray;
use gray::LentPixels;
use replay_records::slices;

fn gray_buffer(p: &[u8], out: &mut [u8]) -> usize {
    if !slices::lendable(p, 13, 1) {
        return 0;
    }
    let mut gray = [0u8; slices::LONGEST];
    let pixels = LentPixels {
        data: slices::rest(p, 17),
        width: little_endian::get::<u32>(p, 0),
        height: little_endian::get::<u32>(p, 4),
        stride: little_endian::get::<u32>(p, 8),
        format: little_endian::get::<u8>(p, 12),
    };
    let r = gray::gray_buffer(pixels, slices::lent(&mut gray, p, 13));
    little_endian::put::<u8>(out, 0, lcr_core::number(r));
    slices::put_lent(out, 1, &gray, p, 13);
    13
}

fn binarize(p: &[u8], out: &mut [u8]) -> usize {
    if !slices::lendable(p, 8, 6) {
        return 0;
    }
    let mut bits = [0u8; slices::LONGEST];
    let mut means = [0u8; slices::LONGEST];
    let mut least = [0u8; slices::LONGEST];
    let mut greatest = [0u8; slices::LONGEST];
    let mut edges = [0u8; slices::LONGEST];
    let mut nears = [0u8; slices::LONGEST];
    let lent = LentGray {
        gray: slices::rest(p, 32),
        width: little_endian::get::<u32>(p, 0),
        height: little_endian::get::<u32>(p, 4),
    };
    let mut blocks = Blocks {
        means: slices::lent(&mut means, p, 12),
        least: slices::lent(&mut least, p, 16),
        greatest: slices::lent(&mut greatest, p, 20),
        edges: slices::lent(&mut edges, p, 24),
        nears: slices::lent(&mut nears, p, 28),
    };
    let r = binarize::binarize(lent, &mut blocks, slices::lent(&mut bits, p, 8));
    little_endian::put::<u8>(out, 0, lcr_core::number(r));
    slices::put_lent(out, 1, &bits, p, 8);
    slices::put_blocks(out, 13, p, 12, &means, &least, &greatest, &edges, &nears);
    73
}

fn denoised(p: &[u8], out: &mut [u8]) -> usize {
    if !slices::lendable(p, 8, 1) {
        return 0;
    }
    let mut bits = [0u8; slices::LONGEST];
    let lent = LentBits {
        bits: slices::rest(p, 12),
        width: little_endian::get::<u32>(p, 0),
        height: little_endian::get::<u32>(p, 4),
    };
    let r = denoise::denoised(lent, slices::lent(&mut bits, p, 8));
    little_endian::put::<u8>(out, 0, lcr_core::number(r));
    slices::put_lent(out, 1, &bits, p, 8);
    13
}

// The calls that this program answers.
struct Calls;

impl replay_records::Answers for Calls {
    fn answer(function: u8, p: &[u8], out: &mut [u8]) -> usize {
        match function {
            16 => gray_buffer(p, out),
            17 => binarize(p, out),
            18 => denoised(p, out),
            _ => 0,
        }
    }
}

fn main() {
    replay_records::run::<Calls>();
}
