// Document 01's listing: every character of the text that the program prints for an input.
#![tactic(auto)]

ghost use Rattle.std.specs.Prelude.{◌≡◌, ◌++◌, ◌*◌, ◌≤◌, length, take, drop, IfOk, IfErr};
ghost use Rattle.lcr_core.specs.Outcome.{number_of};
ghost use Rattle.finders.specs.Answer.{find_refusal};
ghost use Rattle.listing_text.specs.Inner.{ListingPassed, Wrote, found_text};
ghost use Rattle.listing_text.specs.Listing.{chain_text, listing_refusal, listing_of, listing_room, written_in};

use binary::picture::LentBits;
use blocks::Blocks;
use candidates::eight_in;
use finders::MAX_FINDERS;
use gray::LentPixels;
use lcr_core::{Refusal, check_sides};
use lines::{put_list, put_refusal};
use stages::Slices;

mod lines;
mod pieces;

// Room for any listing.
pub const ROOM: usize = 84 + 48 * MAX_FINDERS + 193 * 3;

// How many pixels there are.
fn area(width: u32, height: u32) -> u64
    ensures { result ≡ width * height }
{
    width as u64 * height as u64
}

// The input's refusals, in document 01's order.
fn check_input(input: &[u8]) -> Result<(), Refusal>
    ensures { number_of result ≡ listing_refusal input.now }
{
    if input.len() < 4 {
        return Err(Refusal::ShortPicture);
    }
    let width = little_endian::get::<u16>(input, 0) as u32;
    let height = little_endian::get::<u16>(input, 2) as u32;
    check_sides(width, height)?;
    let pixels = area(width, height);
    if 40000 < pixels {
        return Err(Refusal::ShortOutput);
    }
    if ((input.len() - 4) as u64) < pixels {
        return Err(Refusal::ShortPicture);
    }
    Ok(())
}

// The text of a picture whose denoised bits these are, at the front, where the search refuses nothing.
fn put_searched(bits: LentBits<'_>, text: &mut [u8]) -> Result<u32, Refusal>
    ensures text { let p = bits.entry in IfOk result (λ len. Wrote (found_text p.bits.now p.width p.height) 0 text.old len text.new × (len ≤ listing_room)) }
    ensures number { let p = bits.entry in number_of result ≡ find_refusal p.bits.now p.width p.height }
    ensures kept { IfErr result (λ _. text.new ≡ text.old) }
{
    let found = finders::find_finders(bits)?;
    let detected = candidates::candidates_in(bits, eight_in(found))?;
    Ok(put_list(text, bits.width, bits.height, found, detected))
}

// The text of a picture whose denoised bits these are, at the front: its finders and detections, or the search's refusal.
fn put_found(bits: LentBits<'_>, text: &mut [u8]) -> u32
    ensures text { let p = bits.entry in Wrote (found_text p.bits.now p.width p.height) 0 text.old result text.new }
    ensures most { result ≤ listing_room }
{
    match put_searched(bits, text) {
        Ok(len) => len,
        Err(refusal) => put_refusal(text, u8::from(refusal)),
    }
}

// The text of a gray picture that passed the checks, so that the stages don't refuse it.
fn put_picture(picture: &[u8], width: u32, height: u32, text: &mut [u8]) -> u32
    requires { ListingPassed width height picture.now }
    ensures text { Wrote (chain_text picture.now width height) 0 text.old result text.new }
    ensures most { result ≤ listing_room }
{
    let mut gray = [0u8; 40000];
    let mut bits = [0u8; 5000];
    let mut denoised = [0u8; 5000];
    let mut means = [0u8; 1600];
    let mut least = [0u8; 1600];
    let mut greatest = [0u8; 1600];
    let mut edges = [0u8; 1600];
    let mut nears = [0u8; 1600];
    let pixels = LentPixels {
        data: picture,
        width,
        height,
        stride: width,
        format: 1,
    };
    let mut blocks = Blocks {
        means: &mut means,
        least: &mut least,
        greatest: &mut greatest,
        edges: &mut edges,
        nears: &mut nears,
    };
    let mut slices = Slices {
        gray: &mut gray,
        bits: &mut bits,
        denoised: &mut denoised,
        blocks: &mut blocks,
    };
    let _ = stages::stages(pixels, &mut slices);
    let bits = LentBits {
        bits: slices.denoised,
        width,
        height,
    };
    put_found(bits, text)
}

// The text of an input, at the front.
fn put_listing(input: &[u8], text: &mut [u8]) -> u32
    ensures text { Wrote (listing_of input.now) 0 text.old result text.new }
    ensures most { result ≤ listing_room }
{
    match check_input(input) {
        Err(refusal) => put_refusal(text, u8::from(refusal)),
        Ok(()) => {
            let width = little_endian::get::<u16>(input, 0) as u32;
            let height = little_endian::get::<u16>(input, 2) as u32;
            put_picture(&input[4..], width, height, text)
        }
    }
}

// Writes the listing of an input into text, and answers how many characters it has; writes nothing and answers 0 where text has less than ROOM for it.
pub fn listing(input: &[u8], text: &mut [u8]) -> usize
    ensures len { result ≡ written_in (length text.old) (listing_of input.now) }
    ensures text { text.new ≡ take result (listing_of input.now) ++ drop result text.old }
    ensures most { result ≤ listing_room }
{
    if text.len() < ROOM {
        return 0;
    }
    put_listing(input, text) as usize
}
