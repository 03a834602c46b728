// Records 64 to 67: the alignment marker.
use crate::picture_at;
use lcr_core::point::Point;
use lcr_core::version::Version;
use lcr_core::{Refusal, number};
use replay_records::values;

// A flag, and where the marker is.
fn put_marker(out: &mut [u8], at: u8, m: Option<Point>) {
    if let Some(q) = m {
        little_endian::put::<u8>(out, at as u32, 1);
        values::put_point(out, at as u16 + 1, q);
    }
}

// The refusal's number, or the marker.
fn put_located(out: &mut [u8], r: Result<Option<Point>, Refusal>) -> usize {
    little_endian::put::<u8>(out, 0, number(r));
    put_marker(out, 1, r.unwrap_or(None));
    10
}

fn find_alignment(p: &[u8], out: &mut [u8]) -> usize {
    let r = row_search::find_alignment(
        picture_at(p, 20),
        values::point_at(p, 8),
        values::float_at(p, 16),
    );
    put_located(out, r)
}

fn match_alignment(p: &[u8], out: &mut [u8]) -> usize {
    let r = alignment::match_alignment(
        picture_at(p, 97),
        values::lens_at(p, 8),
        Version(little_endian::get::<u8>(p, 96)),
    );
    put_located(out, r)
}

fn locate_alignment(p: &[u8], out: &mut [u8]) -> usize {
    let r = alignment::locate_alignment(
        picture_at(p, 101),
        values::lens_at(p, 8),
        Version(little_endian::get::<u8>(p, 96)),
        values::float_at(p, 97),
    );
    put_located(out, r)
}

fn refine_alignment(p: &[u8], out: &mut [u8]) -> usize {
    let r = alignment::refine_alignment(
        picture_at(p, 149),
        values::corners_at(p, 8),
        Version(little_endian::get::<u8>(p, 56)),
        values::lens_at(p, 57),
        values::float_at(p, 145),
    );
    little_endian::put::<u8>(out, 0, number(r));
    if let Ok(refined) = r {
        values::put_lens(out, 1, refined.transform);
        put_marker(out, 89, refined.marker);
    }
    98
}

pub fn answer(function: u8, p: &[u8], out: &mut [u8]) -> usize {
    match function {
        64 => find_alignment(p, out),
        65 => match_alignment(p, out),
        66 => locate_alignment(p, out),
        67 => refine_alignment(p, out),
        _ => 0,
    }
}
