// Gray pictures and their blocks.
ghost use Rattle.std.specs.Prelude.{◌≡◌, ◌*◌, ◌≤◌, ◌<◌, length, IfOk};
ghost use Rattle.lcr_core.specs.Outcome.{number_of};
ghost use Rattle.lcr_core.specs.Passed.{Sides};
ghost use Rattle.blocks.specs.Blocks.{blocks_on, blocks_in, picture_refusal};

use super::refusal::check_picture;
use lcr_core::Refusal;

// How many blocks there are along a side: the last one is cut.
pub fn blocks_on(side: usize) -> usize
    ensures { result ≡ blocks_on side }
{
    side.div_ceil(8)
}

// Gray values that are lent as a picture of width × height pixels, row by row, whether they are one or not.
#[derive(Clone, Copy)]
pub struct LentGray<'a> {
    pub gray: &'a [u8],
    pub width: u32,
    pub height: u32,
}

// The gray values of width × height pixels, row by row.
#[derive(Clone, Copy)]
pub struct GrayPicture<'a> {
    pub gray: &'a [u8],
    pub width: usize,
    pub height: usize,
    pub ghost sides: { Sides width height },
    pub ghost bytes: { width * height ≤ length gray.now },
}

impl<'a> LentGray<'a> {
    // The picture, or refusal 1, 2 or 4, in this order.
    pub fn checked(self) -> Result<GrayPicture<'a>, Refusal>
        ensures number { let p = self.entry in number_of result ≡ picture_refusal (length p.gray.now) p.width p.height }
        ensures picture { let p = self.entry in IfOk result (λ q. (q.gray.now ≡ p.gray.now) × (q.width ≡ p.width) × (q.height ≡ p.height)) }
    {
        check_picture(self.gray.len(), self.width, self.height)?;
        Ok(GrayPicture {
            gray: self.gray,
            width: self.width as usize,
            height: self.height as usize,
        })
    }
}

impl GrayPicture<'_> {
    // How many blocks there are in a row of blocks.
    pub fn columns(self) -> usize
        ensures { result ≡ blocks_on self.entry.width }
    {
        blocks_on(self.width)
    }

    // How many rows of blocks there are.
    pub fn rows(self) -> usize
        ensures { result ≡ blocks_on self.entry.height }
    {
        blocks_on(self.height)
    }
}
