// Colours of 8 bits a channel.
ghost use Rattle.std.specs.Prelude.{◌≡◌};
ghost use Rattle.lcr_core.specs.Color.{hex_of, of_hex, luma_of};

#[derive(Clone, Copy)]
pub struct Srgb8 {
    pub r: u8,
    pub g: u8,
    pub b: u8,
}

impl Srgb8 {
    pub fn new(r: u8, g: u8, b: u8) -> Srgb8
        ensures { result ≡ record { r = r; g = g; b = b } }
    {
        Srgb8 { r, g, b }
    }

    // The colour 0xRRGGBB; higher bits are dropped. By the Rust's name and not as `From`, which would not show that bits are lost.
    pub fn from_hex(hex: u32) -> Srgb8
        ensures { result ≡ of_hex hex }
    {
        Srgb8 {
            r: (hex / 65536 % 256) as u8,
            g: (hex / 256 % 256) as u8,
            b: (hex % 256) as u8,
        }
    }

    pub fn to_hex(self) -> u32
        ensures { result ≡ hex_of self }
    {
        self.r as u32 * 65536 + self.g as u32 * 256 + self.b as u32
    }

    // Rec. 709 luma of the channels as they stand.
    pub fn rec709_luma(self) -> f32
        ensures { result ≡ luma_of self }
    {
        0.2126 * self.r as f32 + 0.7152 * self.g as f32 + 0.0722 * self.b as f32
    }
}
