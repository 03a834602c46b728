// Records 1 to 8: versions and colours.
use lcr_core::color::Srgb8;
use lcr_core::version::Version;
use replay_records::values;

// The refusal's number, 0 where there is none, and what is asked of a version.
fn version(function: u8, p: &[u8], out: &mut [u8]) -> usize {
    match Version::new(little_endian::get::<u8>(p, 0)) {
        Ok(v) => match function {
            1 => little_endian::put::<u8>(out, 1, v.get()),
            2 => little_endian::put::<u16>(out, 1, v.side()),
            _ => little_endian::put::<u32>(out, 1, (v.modules() % 4294967296) as u32),
        },
        Err(refusal) => little_endian::put::<u8>(out, 0, u8::from(refusal)),
    }
    match function {
        1 => 2,
        2 => 3,
        _ => 5,
    }
}

// A flag, and the version.
pub fn put_version(out: &mut [u8], version: Option<Version>) -> usize {
    if let Some(v) = version {
        little_endian::put::<u8>(out, 0, 1);
        little_endian::put::<u8>(out, 1, v.get());
    }
    2
}

fn colour(p: &[u8]) -> Srgb8 {
    Srgb8::new(
        little_endian::get::<u8>(p, 0),
        little_endian::get::<u8>(p, 1),
        little_endian::get::<u8>(p, 2),
    )
}

fn put_colour(out: &mut [u8], c: Srgb8) -> usize {
    little_endian::put::<u8>(out, 0, c.r);
    little_endian::put::<u8>(out, 1, c.g);
    little_endian::put::<u8>(out, 2, c.b);
    3
}

pub fn answer(function: u8, p: &[u8], out: &mut [u8]) -> usize {
    match function {
        1 | 2 | 3 => version(function, p, out),
        4 => put_version(out, Version::from_side(little_endian::get::<u16>(p, 0))),
        5 => put_colour(out, colour(p)),
        6 => put_colour(out, Srgb8::from_hex(little_endian::get::<u32>(p, 0))),
        7 => {
            little_endian::put::<u32>(out, 0, colour(p).to_hex());
            4
        }
        8 => {
            values::put_float(out, 0, colour(p).rec709_luma());
            4
        }
        _ => 0,
    }
}
