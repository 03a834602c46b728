// The preview of a frame while the unit is aimed: what the whole chain takes and writes, under a limit of its own, with the finders for an answer.
#![tactic(auto)]

ghost use Rattle.std.specs.Prelude.{◌≡◌, take};
ghost use Rattle.lcr_core.specs.Outcome.{number_of, first_of, side_checks};
ghost use Rattle.stages.specs.Lent.{picture_in, room_in, LeftAfter, SameSlices};
ghost use Rattle.preview.specs.Limit.{preview_limit, over_limit, limited};
ghost use Rattle.preview.specs.Preview.{preview_answer};

use binary::picture::LentBits;
use finders::Finders;
use gray::LentPixels;
use lcr_core::{Refusal, zero_side};
use stages::Slices;

pub mod entry;

// The widest and the highest frame of the display, in pixels.
pub const MAX_WIDTH: u32 = 640;

pub const MAX_HEIGHT: u32 = 480;

// Whether a frame is wider or higher than that.
#[tactic(auto, unfolding(crate::specs::Limit::over_limit))]
pub fn large_frame(width: u32, height: u32) -> bool
    ensures { result ≡ over_limit preview_limit width height }
{
    MAX_WIDTH < width || MAX_HEIGHT < height
}

// Refusals 1 and 10 of a frame, in this order: the first two of the preview's checks.
fn check_frame(width: u32, height: u32) -> Result<(), Refusal>
    ensures { number_of result ≡ first_of (limited preview_limit width height (take 1 (side_checks width height))) }
{
    if zero_side(width, height) {
        return Err(Refusal::ZeroSide);
    }
    if large_frame(width, height) {
        return Err(Refusal::LargeFrame);
    }
    Ok(())
}

// Gray conversion, black and white conversion, denoising and the finders of the denoised bits. Refusals 1 to 5 and 10 come before a byte is written; after
// 6, too many finders, the lent slices hold what they hold after 0.
pub fn preview(pixels: LentPixels<'_>, slices: &mut Slices<'_, '_>) -> Result<Finders, Refusal>
    ensures answer { result ≡ preview_answer (picture_in pixels.entry) (room_in slices.old) }
    ensures same { SameSlices slices.old slices.new }
    ensures left { LeftAfter (number_of result) (picture_in pixels.entry) slices.old slices.new }
{
    check_frame(pixels.width, pixels.height)?;
    stages::stages(pixels, slices)?;
    // Lent by `&` it would not be known to stay as it is.
    let denoised = &mut *slices.denoised;
    let bits = LentBits {
        bits: denoised,
        width: pixels.width,
        height: pixels.height,
    };
    finders::find_finders(bits)
}
