// The detections as bytes for the unit's firmware. Each function takes the slice and the place in it at which it writes: the places are document 01's.
#![tactic(auto)]

ghost use Rattle.std.specs.Prelude.{◌≡◌, ◌^◌, ◌<◌};
ghost use Rattle.little_endian.specs.Bytes.{put};
ghost use Rattle.firmware.specs.Firmware.{finder_bytes, marker_bytes, transform_bytes, detection_bytes, firmware_bytes};

use candidates::{Detection, Detections};
use float::Float;
use lcr_core::finder::Finder;
use lcr_core::point::Point;
use little_endian::put;
use transform::Transform;

// The bytes that the detections take.
pub const SIZE: usize = 367;

// A finder: x, y, module and confirmations.
#[tactic(auto, using(crate::proofs::Bytes::finder_is))]
pub fn put_finder(out: &mut [u8], at: u16, f: Finder)
    ensures { out.new ≡ put (finder_bytes f) at out.old }
{
    let i = at as u32;
    put::<u32>(out, i, f.x.bits());
    put::<u32>(out, i + 4, f.y.bits());
    put::<u32>(out, i + 8, f.module.bits());
    put::<u32>(out, i + 12, f.confirmations);
}

// A marker flag, and the marker's x and y, 0 where there is none.
#[tactic(auto, using(crate::proofs::Bytes::flagged_is))]
fn put_marker(out: &mut [u8], at: u16, m: Option<Point>)
    ensures { out.new ≡ put (marker_bytes m) at out.old }
{
    let i = at as u32;
    match m {
        Some(p) => {
            put::<u8>(out, i, 1);
            put::<u32>(out, i + 1, p.x.bits());
            put::<u32>(out, i + 5, p.y.bits());
        }
        None => {
            put::<u8>(out, i, 0);
            put::<u32>(out, i + 1, 0);
            put::<u32>(out, i + 5, 0);
        }
    }
}

// A transform: its eight numbers, and no lens terms.
#[tactic(auto, using(crate::proofs::Bytes::double_more, crate::proofs::Bytes::all_numbers), unfolding(lists::specs::Lists::flat_map, little_endian::specs::Bytes::put))]
pub fn put_transform(out: &mut [u8], at: u16, t: Transform)
    ensures { out.new ≡ put (transform_bytes t) at out.old }
{
    for (k, x) in t.m.iter().enumerate() {
        put::<u64>(out, at as u32 + 8 * k as u32, x.bits());
    }
}

// A detection: its three finders, its version, its marker and its transform.
#[tactic(auto, using(crate::proofs::Bytes::detection_is))]
fn put_detection(out: &mut [u8], at: u16, d: Detection)
    requires { at < 2 ^ 15 }
    ensures { out.new ≡ put (detection_bytes d) at out.old }
{
    let c = d.finders;
    put_finder(out, at, c.tl);
    put_finder(out, at + 16, c.tr);
    put_finder(out, at + 32, c.bl);
    put::<u8>(out, at as u32 + 48, d.version.get());
    let m = d.marker;
    put_marker(out, at + 49, m);
    let t = d.transform;
    put_transform(out, at + 58, t);
}

// Writes the count's lowest byte and the three places of the table; what the slice has no room for is left out.
#[tactic(auto, using(crate::proofs::Bytes::detection_more, crate::proofs::Bytes::all_places), unfolding(lists::specs::Lists::flat_map, little_endian::specs::Bytes::put))]
pub fn put_detections(out: &mut [u8], t: Detections)
    ensures { out.new ≡ put (firmware_bytes t) 0 out.old }
{
    put::<u8>(out, 0, (t.count % 256) as u8);
    for (k, d) in t.at.iter().enumerate() {
        put_detection(out, 1 + 122 * k as u16, *d);
    }
}
