// What every operation on a lent gray picture refuses first.
ghost use Rattle.std.specs.Prelude.{◌≡◌};
ghost use Rattle.lcr_core.specs.Outcome.{number_of};
ghost use Rattle.blocks.specs.Blocks.{picture_refusal};

use lcr_core::{Refusal, check_sides};

// Refusal 1, 2 or 4 of a picture of so many gray bytes, in this order.
pub fn check_picture(len: usize, width: u32, height: u32) -> Result<(), Refusal>
    ensures { number_of result ≡ picture_refusal len width height }
{
    check_sides(width, height)?;
    if len < width as usize * height as usize {
        return Err(Refusal::ShortPicture);
    }
    Ok(())
}
