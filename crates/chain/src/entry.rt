// The whole chain for the unit's firmware, which is C: numbers and byte slices only, and the refusal's number for an answer. The crate chain_c exports it.
ghost use Rattle.std.specs.Prelude.{◌≡◌, ◌∷◌, [], length};
ghost use Rattle.lcr_core.specs.Outcome.{number_of, first_of};
ghost use Rattle.stages.specs.Pictures.{as_picture, gray_picture, bit_picture, denoised_picture};
ghost use Rattle.stages.specs.Pictures.{block_means, block_least, block_greatest, edge_marks, near_marks, left_after};
ghost use Rattle.stages.specs.Stages.{room_of};
ghost use Rattle.stages.specs.Lent.{picture_in, room_in, LeftAfter, SameSlices};
ghost use Rattle.chain.specs.Chain.{entry_checks, entry_answer, detections_after};

use blocks::Blocks;
use gray::LentPixels;
use lcr_core::{Refusal, number};
use stages::Slices;

// What is refused before a byte is written, with `room` bytes for the detections.
fn check_entry(pixels: LentPixels<'_>, slices: &Slices<'_, '_>, room: usize) -> Result<(), Refusal>
    ensures { number_of result ≡ first_of (entry_checks (picture_in pixels.entry) (room_in slices.now) room) }
{
    stages::check_stages(pixels, slices)?;
    if room < firmware::SIZE {
        return Err(Refusal::ShortOutput);
    }
    Ok(())
}

// The chain, and its detections as bytes in `detections`, all checked before a byte is written.
fn put_chain(
    pixels: LentPixels<'_>,
    slices: &mut Slices<'_, '_>,
    detections: &mut [u8],
) -> Result<(), Refusal>
    ensures refusal { number_of result ≡ number_of (entry_answer (picture_in pixels.entry) (room_in slices.old) (length detections.old)) }
    ensures same { SameSlices slices.old slices.new }
    ensures left { LeftAfter (number_of result) (picture_in pixels.entry) slices.old slices.new }
    ensures detections { detections.new ≡ detections_after (number_of result) (picture_in pixels.entry) detections.old }
{
    check_entry(pixels, slices, detections.len())?;
    let found = crate::chain(pixels, slices)?;
    firmware::put_detections(detections, found);
    Ok(())
}

// The chain, and its detections as bytes in `detections`. Refusals 1 to 5 come before a byte is written; after 6, too many finders, all but `detections`
// is as after 0.
pub fn plate_chain(
    picture: &[u8],
    width: u32,
    height: u32,
    stride: u32,
    format: u8,
    gray: &mut [u8],
    bits: &mut [u8],
    denoised: &mut [u8],
    means: &mut [u8],
    least: &mut [u8],
    greatest: &mut [u8],
    edges: &mut [u8],
    nears: &mut [u8],
    detections: &mut [u8],
) -> u8
    ensures refusal { let p = as_picture picture.now width height stride format in
        let r = room_of gray.old bits.old denoised.old (means.old ∷ least.old ∷ greatest.old ∷ edges.old ∷ nears.old ∷ []) in
        result ≡ number_of (entry_answer p r (length detections.old)) }
    ensures left { let p = as_picture picture.now width height stride format in
        (gray.new ≡ left_after result (gray_picture p) gray.old)
        × (bits.new ≡ left_after result (bit_picture p) bits.old)
        × (denoised.new ≡ left_after result (denoised_picture p) denoised.old)
        × (means.new ≡ left_after result (block_means p) means.old)
        × (least.new ≡ left_after result (block_least p) least.old)
        × (greatest.new ≡ left_after result (block_greatest p) greatest.old)
        × (edges.new ≡ left_after result (edge_marks p) edges.old)
        × (nears.new ≡ left_after result (near_marks p) nears.old)
        × (detections.new ≡ detections_after result p detections.old) }
{
    let pixels = LentPixels {
        data: picture,
        width,
        height,
        stride,
        format,
    };
    let mut blocks = Blocks {
        means,
        least,
        greatest,
        edges,
        nears,
    };
    let mut slices = Slices {
        gray,
        bits,
        denoised,
        blocks: &mut blocks,
    };
    number(put_chain(pixels, &mut slices, detections))
}
