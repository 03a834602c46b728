// Black and white conversion.
#![tactic(auto)]

ghost use Rattle.std.specs.Prelude.{◌≡◌, length};
ghost use Rattle.lcr_core.specs.Outcome.{number_of};
ghost use Rattle.blocks.specs.Work.{lengths, SameBlocks, HasValues};
ghost use Rattle.binarize.specs.Binarize.{binarize_refusal, dark_after};
ghost use Rattle.binarize.specs.Splits.{BinarizePassed};

use blocks::picture::{GrayPicture, LentGray};
use blocks::{Blocks, block_values, check_blocks_lengths};
use lcr_core::Refusal;
use writing::put_picture;

mod blank;
mod grid;
mod levels;
mod split;
mod writing;

// What `binarize` refuses of `len` gray bytes, with `room` bytes for the bits, and work slices of these lengths, in the order of `Blocks`.
pub fn check_binarize_lengths(
    len: usize,
    width: u32,
    height: u32,
    room: usize,
    work: [usize; 5],
) -> Result<(), Refusal>
    ensures { number_of result ≡ binarize_refusal len width height room work }
{
    check_blocks_lengths(len, width, height, work)?;
    if room < (width as usize * height as usize).div_ceil(8) {
        return Err(Refusal::ShortOutput);
    }
    Ok(())
}

// What it refuses of a picture and work slices that are lent, with `room` bytes for the bits.
pub fn check_binarize(gray: LentGray<'_>, blocks: &Blocks<'_>, room: usize) -> Result<(), Refusal>
    ensures { let p = gray.entry in number_of result ≡ binarize_refusal (length p.gray.now) p.width p.height room (lengths blocks.now) }
{
    check_binarize_lengths(
        gray.gray.len(),
        gray.width,
        gray.height,
        room,
        blocks.lengths(),
    )
}

// Black and white conversion of a picture that passed the checks, so that `block_values` does not refuse it.
fn binarize_checked(gray: LentGray<'_>, blocks: &mut Blocks<'_>, bits: &mut [u8])
    requires { BinarizePassed (length gray.gray.now) gray.width gray.height (length bits.old) (lengths blocks.old) }
    ensures same { SameBlocks blocks.old blocks.new }
    ensures values { let p = gray.entry in HasValues 0 p.gray.now p.width p.height blocks.old blocks.new }
    ensures bits { let p = gray.entry in bits.new ≡ dark_after 0 p.gray.now p.width p.height bits.old }
{
    let _ = block_values(gray, blocks);
    let picture = GrayPicture {
        gray: gray.gray,
        width: gray.width as usize,
        height: gray.height as usize,
    };
    put_picture(picture, blocks, bits);
}

// Black and white conversion of a gray picture into bits; the five work slices take a byte for each block.
#[tactic(auto, using(crate::proofs::Refusals::passes))]
pub fn binarize(gray: LentGray<'_>, blocks: &mut Blocks<'_>, bits: &mut [u8]) -> Result<(), Refusal>
    ensures refusal { let p = gray.entry in number_of result ≡ binarize_refusal (length p.gray.now) p.width p.height (length bits.old) (lengths blocks.old) }
    ensures same { SameBlocks blocks.old blocks.new }
    ensures values { let p = gray.entry in HasValues (number_of result) p.gray.now p.width p.height blocks.old blocks.new }
    ensures bits { let p = gray.entry in bits.new ≡ dark_after (number_of result) p.gray.now p.width p.height bits.old }
{
    check_binarize(gray, blocks, bits.len())?;
    binarize_checked(gray, blocks, bits);
    Ok(())
}
