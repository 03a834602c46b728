// The single stages as C calls them, for measurements and tests, over numbers and slices one by one, as C has them. Each gives the number of its stage's
// refusal, or 0. The crate bench_entries_c exports them.
#![tactic(auto)]

ghost use Rattle.std.specs.Prelude.{◌≡◌, ◌∷◌, [], length};
ghost use Rattle.lists.specs.Lists.{written};
ghost use Rattle.lcr_core.specs.Outcome.{number_of, first_of, if_refused};
ghost use Rattle.gray.specs.Gray.{gray_refusal, gray_written};
ghost use Rattle.denoise.specs.Denoise.{denoised_refusal, denoised_written};
ghost use Rattle.blocks.specs.Blocks.{mean_at, least_at, greatest_at, edge_at, near_at, blocks_after};
ghost use Rattle.binarize.specs.Binarize.{binarize_refusal, dark_after};
ghost use Rattle.finders.specs.Answer.{held_in, finders_in, answer_of};
ghost use Rattle.stored.specs.Stored.{stored_bytes};
ghost use Rattle.candidates.specs.Candidates.{table_in, detect_answer};
ghost use Rattle.firmware.specs.Firmware.{firmware_bytes};
ghost use Rattle.bench_entries.specs.Entries.{list_refusal, room_checks, candidates_refusal};

use binary::picture::LentBits;
use blocks::Blocks;
use blocks::picture::LentGray;
use gray::LentPixels;
use lcr_core::{Refusal, number};

// Gray conversion.
pub fn plate_gray(
    picture: &[u8],
    width: u32,
    height: u32,
    stride: u32,
    format: u8,
    gray: &mut [u8],
) -> u8
    ensures number { result ≡ gray_refusal (length picture.now) width height stride format (length gray.old) }
    ensures written { gray.new ≡ gray_written picture.now width height stride format gray.old }
{
    let pixels = LentPixels {
        data: picture,
        width,
        height,
        stride,
        format,
    };
    number(gray::gray_buffer(pixels, gray))
}

// Black and white conversion.
pub fn plate_binarize(
    gray: &[u8],
    width: u32,
    height: u32,
    means: &mut [u8],
    least: &mut [u8],
    greatest: &mut [u8],
    edges: &mut [u8],
    nears: &mut [u8],
    bits: &mut [u8],
) -> u8
    ensures number { result ≡ binarize_refusal (length gray.now) width height (length bits.old) (length means.old
        ∷ length least.old ∷ length greatest.old ∷ length edges.old ∷ length nears.old ∷ []) }
    ensures means { means.new ≡ blocks_after result width height (mean_at gray.now width height) means.old }
    ensures least { least.new ≡ blocks_after result width height (least_at gray.now width height) least.old }
    ensures greatest { greatest.new ≡ blocks_after result width height (greatest_at gray.now width height) greatest.old }
    ensures edges { edges.new ≡ blocks_after result width height (edge_at gray.now width height) edges.old }
    ensures nears { nears.new ≡ blocks_after result width height (near_at gray.now width height) nears.old }
    ensures bits { bits.new ≡ dark_after result gray.now width height bits.old }
{
    let gray = LentGray {
        gray,
        width,
        height,
    };
    let mut blocks = Blocks {
        means,
        least,
        greatest,
        edges,
        nears,
    };
    number(binarize::binarize(gray, &mut blocks, bits))
}

// Denoising.
pub fn plate_denoised(bits: &[u8], width: u32, height: u32, denoised: &mut [u8]) -> u8
    ensures number { result ≡ denoised_refusal (length bits.now) width height (length denoised.old) }
    ensures written { denoised.new ≡ denoised_written bits.now width height denoised.old }
{
    let bits = LentBits {
        bits,
        width,
        height,
    };
    number(denoise::denoised(bits, denoised))
}

// The finder search, and the stored list of what it finds; how long the list is.
fn list_finders(bits: LentBits<'_>, list: &mut [u8]) -> Result<u32, Refusal>
    ensures number { let p = bits.entry in number_of result ≡ list_refusal p.bits.now p.width p.height (length list.old) }
    ensures list { let p = bits.entry in list.new ≡ if_refused (number_of result) list.old
        (written (stored_bytes p.width p.height (held_in (finders_in (answer_of p.bits.now p.width p.height)))) list.old) }
{
    let found = finders::find_finders(bits)?;
    stored::write_list(found, bits.width, bits.height, list)
}

// The finder search, which leaves the stored list.
pub fn plate_finders(bits: &[u8], width: u32, height: u32, list: &mut [u8]) -> u8
    ensures number { result ≡ list_refusal bits.now width height (length list.old) }
    ensures list { list.new ≡ if_refused result list.old
        (written (stored_bytes width height (held_in (finders_in (answer_of bits.now width height)))) list.old) }
{
    let bits = LentBits {
        bits,
        width,
        height,
    };
    number(list_finders(bits, list))
}

// What is refused before the search, with so many bytes of room.
fn check_candidates(bits: LentBits<'_>, room: usize) -> Result<(), Refusal>
    ensures { let p = bits.entry in number_of result ≡ first_of (room_checks (length p.bits.now) p.width p.height room) }
{
    bits.checked()?;
    if room < firmware::SIZE {
        return Err(Refusal::ShortOutput);
    }
    Ok(())
}

// The detections, and the firmware's bytes of them.
fn put_candidates(bits: LentBits<'_>, detections: &mut [u8]) -> Result<(), Refusal>
    ensures number { let p = bits.entry in number_of result ≡ candidates_refusal p.bits.now p.width p.height (length detections.old) }
    ensures detections { let p = bits.entry in detections.new ≡ if_refused (number_of result) detections.old
        (written (firmware_bytes (table_in (detect_answer p.bits.now p.width p.height))) detections.old) }
{
    check_candidates(bits, detections.len())?;
    let found = candidates::detect_candidates(bits)?;
    firmware::put_detections(detections, found);
    Ok(())
}

// The detections, which leaves the firmware's bytes.
pub fn plate_candidates(bits: &[u8], width: u32, height: u32, detections: &mut [u8]) -> u8
    ensures number { result ≡ candidates_refusal bits.now width height (length detections.old) }
    ensures detections { detections.new ≡ if_refused result detections.old
        (written (firmware_bytes (table_in (detect_answer bits.now width height))) detections.old) }
{
    let bits = LentBits {
        bits,
        width,
        height,
    };
    number(put_candidates(bits, detections))
}
