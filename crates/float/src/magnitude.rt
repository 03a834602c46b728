// A magnitude is a bit pattern without its sign's bit: sig * 2 ^ expo of its format's smallest values.
ghost use Rattle.std.specs.Prelude.{◌≡◌, ◌+◌, ◌-◌, ◌*◌, ◌/◌, ◌^◌, ◌<◌};
ghost use Rattle.std.specs.Float.{binary32};
ghost use Rattle.float.specs.Fields.{digits, val};

// The digits of a magnitude, with the leading one, HID, where the exponent's field is not 0: HID is 2^23 for an f32, 2^52 for an f64.
pub fn sig<const HID: u64>(a: u64) -> u64
    requires hid_nonzero { 0 < HID }
    requires hid_bound { HID < 2 ^ 63 }
    ensures { result ≡ digits HID a }
{
    if a < HID { a } else { HID + a % HID }
}

// The exponent of a magnitude, which is 0 where its field is 0 or 1.
pub fn expo<const HID: u64>(a: u64) -> u64
    requires { 0 < HID }
    ensures { result ≡ a / HID - 1 }
{
    (a / HID).saturating_sub(1)
}

// The whole part of a magnitude below 2^32.
pub fn whole(a: u32) -> u32
    requires { a < 0x4f80_0000 }
    ensures { result ≡ val binary32 a / 2 ^ 149 }
{
    let e = a / 0x80_0000;
    if e < 127 {
        return 0;
    }
    let m = 0x80_0000 + a % 0x80_0000;
    (((m as u64) << (e - 127)) >> 23) as u32
}

// The whole number nearest to a magnitude below 2^23, halves up: half of one more than the whole part of its double.
pub fn half_up(a: u32) -> u32
    requires { a < 0x4b00_0000 }
    ensures { result ≡ (val binary32 a * 2 + 2 ^ 149) / 2 ^ 150 }
{
    (whole(a + 0x80_0000) + 1) / 2
}
