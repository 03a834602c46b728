// The preview for the unit's firmware, which is C: numbers and byte slices only, and the refusal's number for an answer. The crate chain_c exports it.
ghost use Rattle.std.specs.Prelude.{◌≡◌, ◌∷◌, [], length};
ghost use Rattle.lcr_core.specs.Outcome.{number_of, first_of};
ghost use Rattle.stages.specs.Pictures.{as_picture, gray_picture, bit_picture, denoised_picture};
ghost use Rattle.stages.specs.Pictures.{block_means, block_least, block_greatest, edge_marks, near_marks, left_after};
ghost use Rattle.stages.specs.Stages.{room_of};
ghost use Rattle.stages.specs.Lent.{picture_in, room_in, LeftAfter, SameSlices};
ghost use Rattle.preview.specs.Preview.{preview_entry_checks, preview_entry_answer, list_after};

use blocks::Blocks;
use gray::LentPixels;
use lcr_core::{Refusal, number};
use stages::Slices;

// What is refused before a byte is written, with `room` bytes for the list.
fn check_entry(pixels: LentPixels<'_>, slices: &Slices<'_, '_>, room: usize) -> Result<(), Refusal>
    ensures { number_of result ≡ first_of (preview_entry_checks (picture_in pixels.entry) (room_in slices.now) room) }
{
    crate::check_frame(pixels.width, pixels.height)?;
    stages::check_stages(pixels, slices)?;
    if room < stored::MAX_SIZE {
        return Err(Refusal::ShortOutput);
    }
    Ok(())
}

// The preview, and its finders as a stored list in `list`, all checked before a byte is written.
fn put_preview(
    pixels: LentPixels<'_>,
    slices: &mut Slices<'_, '_>,
    list: &mut [u8],
) -> Result<(), Refusal>
    ensures refusal { number_of result ≡ number_of (preview_entry_answer (picture_in pixels.entry) (room_in slices.old) (length list.old)) }
    ensures same { SameSlices slices.old slices.new }
    ensures left { LeftAfter (number_of result) (picture_in pixels.entry) slices.old slices.new }
    ensures list { list.new ≡ list_after (number_of result) (picture_in pixels.entry) list.old }
{
    check_entry(pixels, slices, list.len())?;
    let found = crate::preview(pixels, slices)?;
    let _ = stored::write_list(found, pixels.width, pixels.height, list);
    Ok(())
}

// The preview, and its finders as a stored list in `list`. Refusals 1 to 5 and 10 come before a byte is written; after 6, too many finders, all but `list` is
// as after 0.
pub fn plate_preview(
    picture: &[u8],
    width: u32,
    height: u32,
    stride: u32,
    format: u8,
    gray: &mut [u8],
    bits: &mut [u8],
    denoised: &mut [u8],
    means: &mut [u8],
    least: &mut [u8],
    greatest: &mut [u8],
    edges: &mut [u8],
    nears: &mut [u8],
    list: &mut [u8],
) -> u8
    ensures refusal { let p = as_picture picture.now width height stride format in
        let r = room_of gray.old bits.old denoised.old (means.old ∷ least.old ∷ greatest.old ∷ edges.old ∷ nears.old ∷ []) in
        result ≡ number_of (preview_entry_answer p r (length list.old)) }
    ensures left { let p = as_picture picture.now width height stride format in
        (gray.new ≡ left_after result (gray_picture p) gray.old)
        × (bits.new ≡ left_after result (bit_picture p) bits.old)
        × (denoised.new ≡ left_after result (denoised_picture p) denoised.old)
        × (means.new ≡ left_after result (block_means p) means.old)
        × (least.new ≡ left_after result (block_least p) least.old)
        × (greatest.new ≡ left_after result (block_greatest p) greatest.old)
        × (edges.new ≡ left_after result (edge_marks p) edges.old)
        × (nears.new ≡ left_after result (near_marks p) nears.old)
        × (list.new ≡ list_after result p list.old) }
{
    let pixels = LentPixels {
        data: picture,
        width,
        height,
        stride,
        format,
    };
    let mut blocks = Blocks {
        means,
        least,
        greatest,
        edges,
        nears,
    };
    let mut slices = Slices {
        gray,
        bits,
        denoised,
        blocks: &mut blocks,
    };
    number(put_preview(pixels, &mut slices, list))
}
