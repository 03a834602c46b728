// Floats, points, transforms and finders at places of records and answers. Each function takes the slice and the place in it: the places
// are docs/REPLAY.md's, and a program asks for them in no fixed order.
ghost use Rattle.std.specs.Prelude.{◌≡◌, ◌+◌, ◌^◌, ◌<◌, ◌++◌, length, slice_set};
ghost use Rattle.lists.specs.Lists.{flat_map};
ghost use Rattle.little_endian.specs.Bytes.{put, single_bytes, double_bytes};
ghost use Rattle.finders.specs.Answer.{held_in};
ghost use Rattle.firmware.specs.Firmware.{finder_bytes, firmware_bytes};
ghost use Rattle.replay_records.specs.Record.{float_at, double_at, doubles_at, point_at, transform_at, lens_at, read_finder, corners_at, finders_at, flag_bytes, point_bytes, doubles_bytes, lens_bytes, finders_bytes, preview_bytes, detections_bytes, grade_bytes, grades_bytes, grades_at};

use crate::slices::rest;
use candidates::{Detection, Detections};
use finders::Finders;
use float::Float;
use geometry::Corners;
use lcr_core::finder::Finder;
use lcr_core::point::Point;
use transform::Transform;

// Floats of both formats. Two functions and not one over both formats: it would have one line too, and three ghost members in each clause in place of the format.
pub fn float_at(p: &[u8], at: u32) -> f32
    ensures { result ≡ float_at p.now at }
{
    f32::of_bits(little_endian::get::<u32>(p, at))
}

pub fn double_at(p: &[u8], at: u32) -> f64
    ensures { result ≡ double_at p.now at }
{
    f64::of_bits(little_endian::get::<u64>(p, at))
}

pub fn put_float(out: &mut [u8], at: u32, x: f32)
    ensures { out.new ≡ put (single_bytes x) at out.old }
{
    little_endian::put::<u32>(out, at, x.bits());
}

pub fn put_double(out: &mut [u8], at: u32, x: f64)
    ensures { out.new ≡ put (double_bytes x) at out.old }
{
    little_endian::put::<u64>(out, at, x.bits());
}

#[tactic(auto, using(little_endian::proofs::One::put_one, crate::proofs::Parts::flag_is), unfolding(little_endian::specs::Bytes::put))]
pub fn put_flag(out: &mut [u8], at: u32, b: bool)
    ensures { out.new ≡ put (flag_bytes b) at out.old }
{
    little_endian::put::<u8>(out, at, u8::from(b));
}

// Eight numbers, as those of a transform.
pub fn put_doubles(out: &mut [u8], at: u16, x: [f64; 8])
    ensures { out.new ≡ put (doubles_bytes x) at out.old }
{
    firmware::put_transform(out, at, Transform::plain(x));
}

// N numbers of 64 bits, one after the other.
pub fn doubles_at<const N: usize>(p: &[u8], at: u16) -> [f64; N]
    ensures { result ≡ doubles_at N p.now at }
{
    let mut a = [0.0; N];
    for (k, x) in a.iter_mut().enumerate() {
        *x = double_at(rest(p, at as usize + 8 * k), 0);
    }
    a
}

pub fn point_at(p: &[u8], at: u16) -> Point
    ensures { result ≡ point_at p.now at }
{
    Point {
        x: float_at(p, at as u32),
        y: float_at(p, at as u32 + 4),
    }
}

#[tactic(auto, using(crate::proofs::Parts::point_is))]
pub fn put_point(out: &mut [u8], at: u16, q: Point)
    ensures { out.new ≡ put (point_bytes q) at out.old }
{
    put_float(out, at as u32, q.x);
    put_float(out, at as u32 + 4, q.y);
}

pub fn transform_at(p: &[u8], at: u16) -> Transform
    ensures { result ≡ transform_at p.now at }
{
    Transform::plain(doubles_at(p, at))
}

// A transform with its lens terms behind the eight numbers.
pub fn lens_at(p: &[u8], at: u16) -> Transform
    ensures { result ≡ lens_at p.now at }
{
    let i = at as u32;
    Transform {
        m: doubles_at(p, at),
        cx: double_at(p, i + 64),
        cy: double_at(p, i + 72),
        strength: double_at(p, i + 80),
    }
}

#[tactic(auto, using(crate::proofs::Parts::lens_is))]
pub fn put_lens(out: &mut [u8], at: u16, t: Transform)
    ensures { out.new ≡ put (lens_bytes t) at out.old }
{
    let i = at as u32;
    firmware::put_transform(out, at, t);
    put_double(out, i + 64, t.cx);
    put_double(out, i + 72, t.cy);
    put_double(out, i + 80, t.strength);
}

pub fn read_finder(p: &[u8], at: u16) -> Finder
    ensures { result ≡ read_finder p.now at }
{
    let i = at as u32;
    Finder {
        x: float_at(p, i),
        y: float_at(p, i + 4),
        module: float_at(p, i + 8),
        confirmations: little_endian::get::<u32>(p, i + 12),
    }
}

pub fn corners_at(p: &[u8], at: u8) -> Corners
    ensures { result ≡ corners_at p.now at }
{
    let i = at as u16;
    Corners {
        tl: read_finder(p, i),
        tr: read_finder(p, i + 16),
        bl: read_finder(p, i + 32),
    }
}

// A table of so many finders from a place on. Every place of the table is read, and what the record has no bytes for is zero.
pub fn finders_at(p: &[u8], at: u8, count: u32) -> Finders
    ensures { result ≡ finders_at p.now at count }
{
    let mut t = finders::no_finders();
    t.count = count as usize;
    for (i, f) in t.table.iter_mut().enumerate() {
        *f = read_finder(p, at as u16 + 16 * i as u16);
    }
    t
}

// The finders that a table holds; answers the place after them.
#[tactic(auto, using(crate::proofs::Parts::finder_more, crate::proofs::Parts::length_finders), unfolding(lists::specs::Lists::flat_map, little_endian::specs::Bytes::put))]
fn put_held(out: &mut [u8], at: u16, t: Finders) -> usize
    requires { at < 2 ^ 15 }
    ensures bytes { out.new ≡ put (flat_map finder_bytes (held_in t)) at out.old }
    ensures next { result ≡ at + length (flat_map finder_bytes (held_in t)) }
{
    let held = t.as_slice();
    for (i, f) in held.iter().enumerate() {
        firmware::put_finder(out, at + 16 * i as u16, *f);
    }
    at as usize + 16 * held.len()
}

// A count of two bytes and the finders; answers the place after them.
#[tactic(auto, using(little_endian::proofs::Pieces::counted, little_endian::proofs::Pieces::length_counted))]
pub fn put_finders(out: &mut [u8], at: u8, t: Finders) -> usize
    ensures bytes { out.new ≡ put (finders_bytes t) at out.old }
    ensures next { result ≡ at + length (finders_bytes t) }
{
    little_endian::put::<u16>(out, at as u32, (t.count % 65536) as u16);
    put_held(out, at as u16 + 2, t)
}

// A refusal number, the count and the finders; answers the place after them.
#[tactic(auto, using(little_endian::proofs::One::put_one), unfolding(little_endian::specs::Bytes::put))]
pub fn put_preview(out: &mut [u8], refusal: u8, t: Finders) -> usize
    ensures bytes { out.new ≡ put (preview_bytes refusal t) 0 out.old }
    ensures next { result ≡ length (preview_bytes refusal t) }
{
    little_endian::put::<u8>(out, 0, refusal);
    put_finders(out, 1, t)
}

// The count and the detections, as the firmware takes them, behind one byte.
#[tactic(auto, using(crate::proofs::Parts::behind_first, crate::proofs::Parts::behind_nothing))]
fn put_table(out: &mut [u8], t: Detections)
    ensures { out.new ≡ put (firmware_bytes t) 1 out.old }
{
    if 0 < out.len() {
        firmware::put_detections(&mut out[1..], t);
    }
}

#[tactic(auto, using(crate::proofs::Parts::grade_is))]
fn put_grade(out: &mut [u8], at: u32, d: Detection)
    requires { at < 2 ^ 17 }
    ensures { out.new ≡ put (grade_bytes d) at out.old }
{
    put_float(out, at, d.score);
    put_float(out, at + 4, d.mean);
}

// Score and mean module of each of the table's places.
#[tactic(auto, using(crate::proofs::Parts::grade_more), unfolding(lists::specs::Lists::flat_map, little_endian::specs::Bytes::put))]
fn put_grades(out: &mut [u8], at: u16, t: Detections)
    ensures { out.new ≡ put (grades_bytes t) at out.old }
{
    for (k, d) in t.at.iter().enumerate() {
        put_grade(out, at as u32 + 8 * k as u32, *d);
    }
}

// A refusal number, the count, the detections and their grades, score and mean module; answers the place after them. A table has at most three detections; the remainder keeps the place
// behind them within the answer whatever its count.
#[tactic(auto, using(little_endian::proofs::One::put_one), unfolding(little_endian::specs::Bytes::put))]
pub fn put_graded(out: &mut [u8], refusal: u8, t: Detections) -> usize
    ensures bytes { out.new ≡ put (grades_bytes t) (grades_at t) (put (detections_bytes refusal t) 0 out.old) }
    ensures next { result ≡ grades_at t + 24 }
{
    little_endian::put::<u8>(out, 0, refusal);
    put_table(out, t);
    let at = 2 + 122 * (t.count % 4);
    put_grades(out, at as u16, t);
    at + 24
}
