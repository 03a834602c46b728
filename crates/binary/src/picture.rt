// Bit pictures: as they are lent, and as they pass the checks.
ghost use Rattle.std.specs.Prelude.{◌≡◌, length, IfOk};
ghost use Rattle.lcr_core.specs.Outcome.{number_of};
ghost use Rattle.binary.specs.Binary.{dark_at};
ghost use Rattle.binary.specs.Line.{pixel, row, column};
ghost use Rattle.binary.specs.Refusal.{bits_refusal};

use super::bit_of;
use super::line::Line;
use super::refusal::check_bits;
use lcr_core::Refusal;

// Bits that are lent as a picture of width × height pixels, whether they are one or not.
#[derive(Clone, Copy)]
pub struct LentBits<'a> {
    pub bits: &'a [u8],
    pub width: u32,
    pub height: u32,
}

// The bits of width × height pixels.
#[derive(Clone, Copy)]
pub struct BitPicture<'a> {
    pub bits: &'a [u8],
    pub width: u16,
    pub height: u16,
}

// A picture is lent again, as an operation that checks it takes it.
impl<'a> From<BitPicture<'a>> for LentBits<'a> {
    ghost from_gives = { λ p lent. lent ≡ record { bits = p.bits; width = p.width; height = p.height } };

    fn from(picture: BitPicture<'a>) -> LentBits<'a> {
        LentBits {
            bits: picture.bits,
            width: picture.width as u32,
            height: picture.height as u32,
        }
    }
}

impl<'a> LentBits<'a> {
    // Is the pixel dark? Pixels outside the picture are light.
    pub fn dark(self, x: u32, y: u32) -> bool
        ensures { let p = self.entry in result ≡ dark_at p.bits.now p.width p.height x y }
    {
        if self.width <= x {
            return false;
        }
        if self.height <= y {
            return false;
        }
        bit_of(self.bits, y as usize * self.width as usize + x as usize) == 1
    }

    // The picture, or refusal 1, 2 or 4, in this order.
    pub fn checked(self) -> Result<BitPicture<'a>, Refusal>
        ensures number { let p = self.entry in number_of result ≡ bits_refusal (length p.bits.now) p.width p.height }
        ensures picture { let p = self.entry in IfOk result (λ q. (q.bits.now ≡ p.bits.now) × (q.width ≡ p.width) × (q.height ≡ p.height)) }
    {
        check_bits(self.bits.len(), self.width, self.height)?;
        Ok(BitPicture {
            bits: self.bits,
            width: self.width as u16,
            height: self.height as u16,
        })
    }
}

impl<'a> BitPicture<'a> {
    // Is the pixel dark? Pixels outside the picture are light.
    pub fn dark(self, x: u32, y: u32) -> bool
        ensures { let p = self.entry in result ≡ dark_at p.bits.now p.width p.height x y }
    {
        LentBits::from(self).dark(x, y)
    }

    // Row y.
    pub fn row(self, y: u16) -> Line<'a>
        ensures pixels { let p = self.entry in pixel result.bits.now result.start result.stride ≡ row p.bits.now p.width y }
        ensures len { result.len ≡ self.entry.width }
    {
        Line {
            bits: self.bits,
            start: y as u32 * self.width as u32,
            stride: 1,
            len: self.width,
        }
    }

    // Column x.
    pub fn column(self, x: u16) -> Line<'a>
        ensures pixels { let p = self.entry in pixel result.bits.now result.start result.stride ≡ column p.bits.now p.width x }
        ensures len { result.len ≡ self.entry.height }
    {
        Line {
            bits: self.bits,
            start: x as u32,
            stride: self.width as u32,
            len: self.height,
        }
    }
}
