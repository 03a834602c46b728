// Pixel formats.
ghost use Rattle.std.specs.Prelude.{◌≡◌};
ghost use Rattle.std.specs.Option.{ok_or};
ghost use Rattle.lcr_core.specs.declared.Refusal.TheVariants.{UnknownFormat};
ghost use Rattle.gray.specs.Gray.{channels_of, of_byte};

use lcr_core::Refusal;

// How a pixel stands in a picture.
#[derive(Clone, Copy)]
pub enum PixelFormat {
    Gray8,
    Rgb8,
    Rgba8,
}

impl PixelFormat {
    // Bytes of a pixel, and the byte that stands for the format. A method and not `From`: its name says which of the two is asked.
    pub fn channels(self) -> usize
        ensures { result ≡ channels_of self }
    {
        match self {
            PixelFormat::Gray8 => 1,
            PixelFormat::Rgb8 => 3,
            PixelFormat::Rgba8 => 4,
        }
    }
}

// The format that a byte stands for, or refusal 3.
impl TryFrom<u8> for PixelFormat {
    type Error = Refusal;

    ghost try_from_gives = { λ byte result. result ≡ ok_or (of_byte byte) UnknownFormat };

    fn try_from(byte: u8) -> Result<PixelFormat, Refusal> {
        match byte {
            1 => Ok(PixelFormat::Gray8),
            3 => Ok(PixelFormat::Rgb8),
            4 => Ok(PixelFormat::Rgba8),
            _ => Err(Refusal::UnknownFormat),
        }
    }
}
