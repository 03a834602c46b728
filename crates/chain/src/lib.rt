// The whole chain in one call: the picture stages, then the detections of the denoised bits.
#![tactic(auto)]

ghost use Rattle.std.specs.Prelude.{◌≡◌};
ghost use Rattle.lcr_core.specs.Outcome.{number_of};
ghost use Rattle.stages.specs.Lent.{picture_in, room_in, LeftAfter, SameSlices};
ghost use Rattle.chain.specs.Chain.{whole_answer};

use binary::picture::LentBits;
use candidates::Detections;
use gray::LentPixels;
use lcr_core::Refusal;
use stages::Slices;

pub mod entry;

// Gray conversion, black and white conversion, denoising and the detections of the denoised bits. Refusals 1 to 5 come before a byte is written; after 6,
// too many finders, the lent slices hold what they hold after 0.
pub fn chain(pixels: LentPixels<'_>, slices: &mut Slices<'_, '_>) -> Result<Detections, Refusal>
    ensures answer { result ≡ whole_answer (picture_in pixels.entry) (room_in slices.old) }
    ensures same { SameSlices slices.old slices.new }
    ensures left { LeftAfter (number_of result) (picture_in pixels.entry) slices.old slices.new }
{
    stages::stages(pixels, slices)?;
    // Lent by `&` it would not be known to stay as it is.
    let denoised = &mut *slices.denoised;
    let bits = LentBits {
        bits: denoised,
        width: pixels.width,
        height: pixels.height,
    };
    candidates::detect_candidates(bits)
}
