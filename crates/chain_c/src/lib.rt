// The whole chain and the preview for the unit's firmware, which is C: numbers as themselves, a slice as its pointer and its length (include/sirvoltha.h).
#![tactic(auto)]

ghost use Rattle.std.specs.Prelude.{◌≡◌, ◌∷◌, [], length};
ghost use Rattle.lcr_core.specs.Outcome.{number_of};
ghost use Rattle.stages.specs.Pictures.{as_picture, gray_picture, bit_picture, denoised_picture};
ghost use Rattle.stages.specs.Pictures.{block_means, block_least, block_greatest, edge_marks, near_marks, left_after};
ghost use Rattle.stages.specs.Stages.{room_of};
ghost use Rattle.chain.specs.Chain.{entry_answer, detections_after};
ghost use Rattle.preview.specs.Preview.{preview_entry_answer, list_after};

// The chain, and its detections as bytes in `detections`. Refusals 1 to 5 come before a byte is written; after 6, too many finders, all but `detections`
// is as after 0.
#[unsafe(no_mangle)]
pub extern "C" fn plate_chain(
    picture: &[u8],
    width: u32,
    height: u32,
    stride: u32,
    format: u8,
    gray: &mut [u8],
    bits: &mut [u8],
    denoised: &mut [u8],
    means: &mut [u8],
    least: &mut [u8],
    greatest: &mut [u8],
    edges: &mut [u8],
    nears: &mut [u8],
    detections: &mut [u8],
) -> u8
    ensures refusal { let p = as_picture picture.now width height stride format in
        let r = room_of gray.old bits.old denoised.old (means.old ∷ least.old ∷ greatest.old ∷ edges.old ∷ nears.old ∷ []) in
        result ≡ number_of (entry_answer p r (length detections.old)) }
    ensures left { let p = as_picture picture.now width height stride format in
        (gray.new ≡ left_after result (gray_picture p) gray.old)
        × (bits.new ≡ left_after result (bit_picture p) bits.old)
        × (denoised.new ≡ left_after result (denoised_picture p) denoised.old)
        × (means.new ≡ left_after result (block_means p) means.old)
        × (least.new ≡ left_after result (block_least p) least.old)
        × (greatest.new ≡ left_after result (block_greatest p) greatest.old)
        × (edges.new ≡ left_after result (edge_marks p) edges.old)
        × (nears.new ≡ left_after result (near_marks p) nears.old)
        × (detections.new ≡ detections_after result p detections.old) }
{
    chain::entry::plate_chain(
        picture, width, height, stride, format, gray, bits, denoised, means, least, greatest,
        edges, nears, detections,
    )
}

// The preview, and its finders as a stored list in `list`. Refusals 1 to 5 and 10 come before a byte is written; after 6, too many finders, all but `list` is
// as after 0.
#[unsafe(no_mangle)]
pub extern "C" fn plate_preview(
    picture: &[u8],
    width: u32,
    height: u32,
    stride: u32,
    format: u8,
    gray: &mut [u8],
    bits: &mut [u8],
    denoised: &mut [u8],
    means: &mut [u8],
    least: &mut [u8],
    greatest: &mut [u8],
    edges: &mut [u8],
    nears: &mut [u8],
    list: &mut [u8],
) -> u8
    ensures refusal { let p = as_picture picture.now width height stride format in
        let r = room_of gray.old bits.old denoised.old (means.old ∷ least.old ∷ greatest.old ∷ edges.old ∷ nears.old ∷ []) in
        result ≡ number_of (preview_entry_answer p r (length list.old)) }
    ensures left { let p = as_picture picture.now width height stride format in
        (gray.new ≡ left_after result (gray_picture p) gray.old)
        × (bits.new ≡ left_after result (bit_picture p) bits.old)
        × (denoised.new ≡ left_after result (denoised_picture p) denoised.old)
        × (means.new ≡ left_after result (block_means p) means.old)
        × (least.new ≡ left_after result (block_least p) least.old)
        × (greatest.new ≡ left_after result (block_greatest p) greatest.old)
        × (edges.new ≡ left_after result (edge_marks p) edges.old)
        × (nears.new ≡ left_after result (near_marks p) nears.old)
        × (list.new ≡ list_after result p list.old) }
{
    preview::entry::plate_preview(
        picture, width, height, stride, format, gray, bits, denoised, means, least, greatest,
        edges, nears, list,
    )
}
