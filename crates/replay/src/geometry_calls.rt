// Records 48 to 59: linear equations, transforms, and what three finders tell.
ghost use Rattle.std.specs.Prelude.{◌≡◌, ◌*◌, ◌≤◌};
ghost use Rattle.lists.specs.Lists.{tabulate};
ghost use Rattle.replay_records.specs.Record.{doubles_at};

use crate::core_calls::put_version;
use lcr_core::point::Point;
use lcr_core::version::Version;
use replay_records::values;
use transform::{Quad, Transform, Triangle};

// N rows of N numbers.
fn rows_at<const N: usize>(p: &[u8]) -> [[f64; N]; N]
    requires { N ≤ 8 }
    ensures { result ≡ tabulate N (λ k. doubles_at N p.now (8 * N * k)) }
{
    let mut a = [[0.0; N]; N];
    for (k, row) in a.iter_mut().enumerate() {
        *row = values::doubles_at(p, (8 * N * k) as u16);
    }
    a
}

fn solve<const N: usize>(p: &[u8], out: &mut [u8]) -> usize
    requires { N ≤ 8 }
{
    let s = math::solve::<N>(&rows_at(p), &values::doubles_at(p, (8 * N * N) as u16));
    values::put_flag(out, 0, s.is_some());
    for (k, x) in s.unwrap_or([0.0; N]).iter().enumerate() {
        values::put_double(out, 1 + 8 * k as u32, *x);
    }
    1 + 8 * N
}

fn put_fit(out: &mut [u8], fit: Option<Transform>) -> usize {
    values::put_flag(out, 0, fit.is_some());
    firmware::put_transform(out, 1, fit.unwrap_or(Transform::zero()));
    65
}

fn from_quad(p: &[u8], out: &mut [u8]) -> usize {
    let src = Quad {
        a: values::point_at(p, 0),
        b: values::point_at(p, 8),
        c: values::point_at(p, 16),
        d: values::point_at(p, 24),
    };
    let dst = Quad {
        a: values::point_at(p, 32),
        b: values::point_at(p, 40),
        c: values::point_at(p, 48),
        d: values::point_at(p, 56),
    };
    put_fit(out, Transform::from_quad(src, dst))
}

fn from_triangle(p: &[u8], out: &mut [u8]) -> usize {
    let src = Triangle {
        a: values::point_at(p, 0),
        b: values::point_at(p, 8),
        c: values::point_at(p, 16),
    };
    let dst = Triangle {
        a: values::point_at(p, 24),
        b: values::point_at(p, 32),
        c: values::point_at(p, 40),
    };
    put_fit(out, Transform::from_triangle(src, dst))
}

fn apply(p: &[u8], out: &mut [u8]) -> usize {
    let t = values::lens_at(p, 0);
    values::put_point(
        out,
        0,
        t.apply(values::float_at(p, 88), values::float_at(p, 92)),
    );
    8
}

fn module_center(p: &[u8], out: &mut [u8]) -> usize {
    let t = values::lens_at(p, 0);
    values::put_point(
        out,
        0,
        t.module_center(
            little_endian::get::<u16>(p, 88),
            little_endian::get::<u16>(p, 90),
        ),
    );
    8
}

fn local_pitch(p: &[u8], out: &mut [u8]) -> usize {
    let t = values::lens_at(p, 0);
    values::put_float(
        out,
        0,
        t.local_pitch(
            little_endian::get::<u16>(p, 88),
            little_endian::get::<u16>(p, 90),
        ),
    );
    4
}

fn pitch_range(p: &[u8], out: &mut [u8]) -> usize {
    let t = values::lens_at(p, 0);
    let r = t.pitch_range(little_endian::get::<u16>(p, 88));
    values::put_float(out, 0, r.least);
    values::put_float(out, 4, r.greatest);
    8
}

fn order_finders(p: &[u8], out: &mut [u8]) -> usize {
    let c = values::corners_at(p, 0);
    let r = geometry::order_finders(c.tl, c.tr, c.bl);
    firmware::put_finder(out, 0, r.tl);
    firmware::put_finder(out, 16, r.tr);
    firmware::put_finder(out, 32, r.bl);
    48
}

// A flag, and where the marker is.
fn marker_at(p: &[u8], at: u8) -> Option<Point> {
    if little_endian::get::<u8>(p, at as u32) == 0 {
        return None;
    }
    Some(values::point_at(p, at as u16 + 1))
}

fn build_transform(p: &[u8], out: &mut [u8]) -> usize {
    let version = little_endian::get::<u8>(p, 57);
    let b = geometry::build_transform(values::corners_at(p, 0), marker_at(p, 48), Version(version));
    let fit = match b {
        Ok(fit) => fit,
        Err(refusal) => {
            little_endian::put::<u8>(out, 0, u8::from(refusal));
            None
        }
    };
    values::put_flag(out, 1, fit.is_some());
    firmware::put_transform(out, 2, fit.unwrap_or(Transform::zero()));
    66
}

fn with_radial(p: &[u8], out: &mut [u8]) -> usize {
    let t = values::transform_at(p, 0);
    let cx = values::float_at(p, 64);
    let cy = values::float_at(p, 68);
    values::put_lens(out, 0, t.with_radial(cx, cy, values::float_at(p, 72)));
    88
}

pub fn answer(function: u8, p: &[u8], out: &mut [u8]) -> usize {
    match function {
        48 => solve::<6>(p, out),
        49 => solve::<8>(p, out),
        50 => from_quad(p, out),
        51 => from_triangle(p, out),
        52 => apply(p, out),
        53 => module_center(p, out),
        54 => local_pitch(p, out),
        55 => pitch_range(p, out),
        56 => order_finders(p, out),
        57 => put_version(out, geometry::estimate_version(values::corners_at(p, 0))),
        58 => build_transform(p, out),
        59 => with_radial(p, out),
        _ => 0,
    }
}
