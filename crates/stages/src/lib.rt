// The picture stages in one call: gray conversion, black and white conversion and denoising, all checked before a byte is written.
#![tactic(auto)]

ghost use Rattle.std.specs.Prelude.{◌≡◌};
ghost use Rattle.lcr_core.specs.Outcome.{number_of};
ghost use Rattle.stages.specs.Stages.{stages_refusal, refusal_of};
ghost use Rattle.stages.specs.Lent.{picture_in, room_in, LeftAfter, SameSlices};

use binary::picture::LentBits;
use blocks::Blocks;
use blocks::picture::LentGray;
use gray::LentPixels;
use lcr_core::Refusal;

// The slices that the stages write: gray values, their bits, the denoised bits and the values of the blocks. The blocks' stand behind a
// `&mut`: held by value they got no proof.
#[derive(Drop)]
pub struct Slices<'a, 'b> {
    pub gray: &'a mut [u8],
    pub bits: &'a mut [u8],
    pub denoised: &'a mut [u8],
    pub blocks: &'a mut Blocks<'b>,
}

// What `stages` refuses of `len` picture bytes, with so many bytes for gray values, bits and denoised bits, and work slices of these lengths, in the order of
// `Blocks`.
pub fn check_stages_lengths(
    len: usize,
    width: u32,
    height: u32,
    stride: u32,
    format: u8,
    gray: usize,
    bits: usize,
    denoised: usize,
    work: [usize; 5],
) -> Result<(), Refusal>
    ensures { number_of result ≡ refusal_of len width height stride format (record { gray = gray; bits = bits; denoised = denoised; work = work }) }
{
    gray::check_gray_lengths(len, width, height, stride, format, gray)?;
    binarize::check_binarize_lengths(gray, width, height, bits, work)?;
    denoise::check_denoised_lengths(bits, width, height, denoised)
}

// What it refuses of a picture and slices that are lent.
#[tactic(auto, unfolding(crate::specs::Stages::stages_refusal, crate::specs::Stages::refusal_of))]
pub fn check_stages(pixels: LentPixels<'_>, slices: &Slices<'_, '_>) -> Result<(), Refusal>
    ensures { number_of result ≡ stages_refusal (picture_in pixels.entry) (room_in slices.now) }
{
    check_stages_lengths(
        pixels.data.len(),
        pixels.width,
        pixels.height,
        pixels.stride,
        pixels.format,
        slices.gray.len(),
        slices.bits.len(),
        slices.denoised.len(),
        slices.blocks.lengths(),
    )
}

// The stages of a picture that passed the checks, so that none of them refuses it.
fn run_checked(pixels: LentPixels<'_>, slices: &mut Slices<'_, '_>)
    requires { stages_refusal (picture_in pixels) (room_in slices.old) ≡ 0 }
    ensures same { SameSlices slices.old slices.new }
    ensures left { LeftAfter 0 (picture_in pixels.entry) slices.old slices.new }
{
    let gray = &mut *slices.gray;
    let bits = &mut *slices.bits;
    let _ = gray::gray_buffer(pixels, gray);
    let lent_gray = LentGray {
        gray,
        width: pixels.width,
        height: pixels.height,
    };
    let _ = binarize::binarize(lent_gray, slices.blocks, bits);
    let lent_bits = LentBits {
        bits,
        width: pixels.width,
        height: pixels.height,
    };
    let _ = denoise::denoised(lent_bits, slices.denoised);
}

// Gray conversion of a picture, black and white conversion of the gray picture and denoising of its bits, with a byte for each block in each of the five
// work slices; or refuses and writes nothing.
pub fn stages(pixels: LentPixels<'_>, slices: &mut Slices<'_, '_>) -> Result<(), Refusal>
    ensures refusal { number_of result ≡ stages_refusal (picture_in pixels.entry) (room_in slices.old) }
    ensures same { SameSlices slices.old slices.new }
    ensures left { LeftAfter (number_of result) (picture_in pixels.entry) slices.old slices.new }
{
    check_stages(pixels, slices)?;
    run_checked(pixels, slices);
    Ok(())
}
