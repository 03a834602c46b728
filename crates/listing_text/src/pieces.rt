// A listing under construction, and the fields of its lines, each with the character that follows it. A character beyond the slice is not written.
ghost use Rattle.std.specs.Prelude.{[], ◌∷◌, ◌++◌, ◌+◌, ◌^◌, ◌≤◌, ◌<◌, length};
ghost use Rattle.listing_text.specs.Text.{hex_text, decimal_text, single_text, double_text};
ghost use Rattle.listing_text.specs.Inner.{Adds};
ghost use Rattle.listing_text.specs.Listing.{decimal_room, single_room, double_room};

use float::Float;

// A listing under construction: what is written so far stands before `at`.
#[derive(Drop)]
pub struct Text<'a> {
    pub text: &'a mut [u8],
    pub at: u32,
}

impl Text<'_> {
    // A field, and the character that follows it.
    pub fn field(&mut self, field: &[u8], end: u8)
        requires { (self.old.at < 2 ^ 31) × (length field.now ≤ 20) }
        ensures { Adds (field.now ++ (end ∷ [])) (length field.now + 1) self.old self.new }
    {
        let at = self.at;
        let text = &mut *self.text;
        for (i, b) in field.iter().enumerate() {
            little_endian::put::<u8>(text, at + i as u32, *b);
        }
        let last = at + field.len() as u32;
        little_endian::put::<u8>(text, last, end);
        self.at = last + 1;
    }

    pub fn decimal(&mut self, n: u64, end: u8)
        requires { self.old.at < 2 ^ 31 }
        ensures { Adds (decimal_text n ++ (end ∷ [])) decimal_room self.old self.new }
    {
        let mut digits = [0u8; 20];
        let k = io::decimal(n, &mut digits);
        self.field(&digits[..k], end);
    }

    // The lowest digits of a number, which they hold whole.
    fn hex(&mut self, n: u64, digits: usize, end: u8)
        requires at { self.old.at < 2 ^ 31 }
        requires some { 0 < digits }
        requires few { digits ≤ 16 }
        requires whole { n < 16 ^ digits }
        ensures { Adds (hex_text digits n ++ (end ∷ [])) (digits + 1) self.old self.new }
    {
        let mut room = [0u8; 16];
        let k = io::hex(n, digits, &mut room);
        self.field(&room[..k], end);
    }

    pub fn single(&mut self, x: f32, end: u8)
        requires { self.old.at < 2 ^ 31 }
        ensures { Adds (single_text x ++ (end ∷ [])) single_room self.old self.new }
    {
        self.hex(x.bits() as u64, 8, end);
    }

    pub fn double(&mut self, x: f64, end: u8)
        requires { self.old.at < 2 ^ 31 }
        ensures { Adds (double_text x ++ (end ∷ [])) double_room self.old self.new }
    {
        self.hex(x.bits(), 16, end);
    }
}
