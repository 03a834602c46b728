// Runs calls from standard input and prints their answers, a line each (docs/REPLAY.md): record 96, the whole chain, and record 97, the preview.
#![tactic(auto)]

use blocks::Blocks;
use gray::LentPixels;
use replay_records::{slices, values};
use stages::Slices;

// A call that takes a picture and the eight slices: it puts what stands before the slices into the answer; the place after it.
trait Call {
    fn run(pixels: LentPixels<'_>, slices: &mut Slices<'_, '_>, out: &mut [u8]) -> usize;
}

struct Chain;

impl Call for Chain {
    fn run(pixels: LentPixels<'_>, slices: &mut Slices<'_, '_>, out: &mut [u8]) -> usize {
        let answer = chain::chain(pixels, slices);
        let found = answer.unwrap_or(candidates::no_detections());
        values::put_graded(out, lcr_core::number(answer), found)
    }
}

struct Preview;

impl Call for Preview {
    fn run(pixels: LentPixels<'_>, slices: &mut Slices<'_, '_>, out: &mut [u8]) -> usize {
        let answer = preview::preview(pixels, slices);
        let found = answer.unwrap_or(finders::no_finders());
        values::put_preview(out, lcr_core::number(answer), found)
    }
}

// Lends what the payload says, runs the call and puts the slices behind its answer.
fn lend<C: Call>(p: &[u8], out: &mut [u8]) -> usize {
    if !slices::lendable(p, 13, 8) {
        return 0;
    }
    let mut gray = [0u8; slices::LONGEST];
    let mut bits = [0u8; slices::LONGEST];
    let mut denoised = [0u8; slices::LONGEST];
    let mut means = [0u8; slices::LONGEST];
    let mut least = [0u8; slices::LONGEST];
    let mut greatest = [0u8; slices::LONGEST];
    let mut edges = [0u8; slices::LONGEST];
    let mut nears = [0u8; slices::LONGEST];
    let pixels = LentPixels {
        data: slices::rest(p, 45),
        width: little_endian::get::<u32>(p, 0),
        height: little_endian::get::<u32>(p, 4),
        stride: little_endian::get::<u32>(p, 8),
        format: little_endian::get::<u8>(p, 12),
    };
    let mut blocks = Blocks {
        means: slices::lent(&mut means, p, 25),
        least: slices::lent(&mut least, p, 29),
        greatest: slices::lent(&mut greatest, p, 33),
        edges: slices::lent(&mut edges, p, 37),
        nears: slices::lent(&mut nears, p, 41),
    };
    let mut lent = Slices {
        gray: slices::lent(&mut gray, p, 13),
        bits: slices::lent(&mut bits, p, 17),
        denoised: slices::lent(&mut denoised, p, 21),
        blocks: &mut blocks,
    };
    let end = C::run(pixels, &mut lent, out);
    let at = end.min(replay_records::ANSWER) as u16;
    slices::put_lent(out, at, &gray, p, 13);
    slices::put_lent(out, at + 12, &bits, p, 17);
    slices::put_lent(out, at + 24, &denoised, p, 21);
    slices::put_blocks(
        out,
        at + 36,
        p,
        25,
        &means,
        &least,
        &greatest,
        &edges,
        &nears,
    );
    at as usize + 96
}

// The calls that this program answers.
struct Calls;

impl replay_records::Answers for Calls {
    fn answer(function: u8, p: &[u8], out: &mut [u8]) -> usize {
        match function {
            96 => lend::<Chain>(p, out),
            97 => lend::<Preview>(p, out),
            _ => 0,
        }
    }
}

fn main() {
    replay_records::run::<Calls>();
}
