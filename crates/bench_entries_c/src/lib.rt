// C entries of the single stages, for measurements and tests: numbers as themselves, a slice as its pointer and its length (include/sirvoltha_stages.h).
// Each gives the number of its stage's refusal, or 0.
#![tactic(auto)]

ghost use Rattle.std.specs.Prelude.{◌≡◌, ◌∷◌, [], length};
ghost use Rattle.lists.specs.Lists.{written};
ghost use Rattle.lcr_core.specs.Outcome.{if_refused};
ghost use Rattle.gray.specs.Gray.{gray_refusal, gray_written};
ghost use Rattle.denoise.specs.Denoise.{denoised_refusal, denoised_written};
ghost use Rattle.blocks.specs.Blocks.{mean_at, least_at, greatest_at, edge_at, near_at, blocks_after};
ghost use Rattle.binarize.specs.Binarize.{binarize_refusal, dark_after};
ghost use Rattle.finders.specs.Answer.{held_in, finders_in, answer_of};
ghost use Rattle.stored.specs.Stored.{stored_bytes};
ghost use Rattle.candidates.specs.Candidates.{table_in, detect_answer};
ghost use Rattle.firmware.specs.Firmware.{firmware_bytes};
ghost use Rattle.bench_entries.specs.Entries.{list_refusal, candidates_refusal};

// Gray conversion.
#[unsafe(no_mangle)]
pub extern "C" fn plate_gray(
    picture: &[u8],
    width: u32,
    height: u32,
    stride: u32,
    format: u8,
    gray: &mut [u8],
) -> u8
    ensures number { result ≡ gray_refusal (length picture.now) width height stride format (length gray.old) }
    ensures written { gray.new ≡ gray_written picture.now width height stride format gray.old }
{
    bench_entries::plate_gray(picture, width, height, stride, format, gray)
}

// Black and white conversion.
#[unsafe(no_mangle)]
pub extern "C" fn plate_binarize(
    gray: &[u8],
    width: u32,
    height: u32,
    means: &mut [u8],
    least: &mut [u8],
    greatest: &mut [u8],
    edges: &mut [u8],
    nears: &mut [u8],
    bits: &mut [u8],
) -> u8
    ensures number { result ≡ binarize_refusal (length gray.now) width height (length bits.old) (length means.old
        ∷ length least.old ∷ length greatest.old ∷ length edges.old ∷ length nears.old ∷ []) }
    ensures means { means.new ≡ blocks_after result width height (mean_at gray.now width height) means.old }
    ensures least { least.new ≡ blocks_after result width height (least_at gray.now width height) least.old }
    ensures greatest { greatest.new ≡ blocks_after result width height (greatest_at gray.now width height) greatest.old }
    ensures edges { edges.new ≡ blocks_after result width height (edge_at gray.now width height) edges.old }
    ensures nears { nears.new ≡ blocks_after result width height (near_at gray.now width height) nears.old }
    ensures bits { bits.new ≡ dark_after result gray.now width height bits.old }
{
    bench_entries::plate_binarize(
        gray, width, height, means, least, greatest, edges, nears, bits,
    )
}

// Denoising.
#[unsafe(no_mangle)]
pub extern "C" fn plate_denoised(bits: &[u8], width: u32, height: u32, denoised: &mut [u8]) -> u8
    ensures number { result ≡ denoised_refusal (length bits.now) width height (length denoised.old) }
    ensures written { denoised.new ≡ denoised_written bits.now width height denoised.old }
{
    bench_entries::plate_denoised(bits, width, height, denoised)
}

// The finder search, which leaves the stored list.
#[unsafe(no_mangle)]
pub extern "C" fn plate_finders(bits: &[u8], width: u32, height: u32, list: &mut [u8]) -> u8
    ensures number { result ≡ list_refusal bits.now width height (length list.old) }
    ensures list { list.new ≡ if_refused result list.old
        (written (stored_bytes width height (held_in (finders_in (answer_of bits.now width height)))) list.old) }
{
    bench_entries::plate_finders(bits, width, height, list)
}

// The detections, which leaves the firmware's bytes.
#[unsafe(no_mangle)]
pub extern "C" fn plate_candidates(
    bits: &[u8],
    width: u32,
    height: u32,
    detections: &mut [u8],
) -> u8
    ensures number { result ≡ candidates_refusal bits.now width height (length detections.old) }
    ensures detections { detections.new ≡ if_refused result detections.old
        (written (firmware_bytes (table_in (detect_answer bits.now width height))) detections.old) }
{
    bench_entries::plate_candidates(bits, width, height, detections)
}
