// What three finders tell of a symbol: which is which, their score, its version, and the map from its modules to pixels.
#![tactic(auto)]

ghost use Rattle.std.specs.Prelude.{◌≡◌};
ghost use Rattle.geometry.specs.Order.{span_of, span2_of, is_longest, turned_of, order_of};
ghost use Rattle.geometry.specs.Estimate.{edge_of, side_in, nearest_version, estimate_of};
ghost use Rattle.geometry.specs.Build.{modules_of, pixels_of, affine_of, homography_of, symbol_fit, built_of};

use lcr_core::Refusal;
use lcr_core::finder::Finder;
use lcr_core::point::Point;
use lcr_core::version::Version;
use transform::{Quad, Transform, Triangle};

pub mod score;

// Three finders by what they are: top left, top right, bottom left.
#[derive(Clone, Copy)]
pub struct Corners {
    pub tl: Finder,
    pub tr: Finder,
    pub bl: Finder,
}

// From a finder's centre to another's.
fn span(a: Finder, b: Finder) -> f32
    ensures { result ≡ span_of a b }
{
    transform::distance(a.centre(), b.centre())
}

fn span2(a: Finder, b: Finder) -> f32
    ensures { result ≡ span2_of a b }
{
    transform::distance2(a.centre(), b.centre())
}

// ---- the order

fn turned(c: Finder, p: Finder, q: Finder) -> Corners
    ensures { result ≡ turned_of c p q }
{
    let cross = (p.x - c.x) * (q.y - c.y) - (p.y - c.y) * (q.x - c.x);
    if cross > 0.0 {
        Corners {
            tl: c,
            tr: p,
            bl: q,
        }
    } else {
        Corners {
            tl: c,
            tr: q,
            bl: p,
        }
    }
}

fn longest(x: f32, y: f32, z: f32) -> bool
    ensures { result ≡ is_longest x y z }
{
    x >= y && x >= z
}

// The corner is the finder opposite the longest side. Three finders whose order is not known yet are three arguments; once it is, they are `Corners`.
pub fn order_finders(a: Finder, b: Finder, c: Finder) -> Corners
    ensures { result ≡ order_of a b c }
{
    let ab = span2(a, b);
    let bc = span2(b, c);
    let ca = span2(c, a);
    if longest(ab, bc, ca) {
        turned(c, a, b)
    } else if longest(bc, ab, ca) {
        turned(a, b, c)
    } else {
        turned(b, c, a)
    }
}

// ---- the version

// From one finder to another in modules, by the mean of their modules.
fn edge(a: Finder, b: Finder) -> f32
    ensures { result ≡ edge_of a b }
{
    span(a, b) / ((a.module + b.module) / 2.0)
}

fn side_in(c: Corners) -> f32
    ensures { result ≡ side_in c }
{
    (edge(c.tl, c.tr) + edge(c.tl, c.bl)) / 2.0 + 7.0
}

fn nearest_version(side: f32) -> u8
    ensures { result ≡ nearest_version side }
{
    let n = float::to_u32(float::round32((side - 21.0) / 4.0));
    let most = Version::MAX_CLASSIC.0;
    if n < most as u32 { (n + 1) as u8 } else { most }
}

// The version, or none.
pub fn estimate_version(c: Corners) -> Option<Version>
    ensures { result ≡ estimate_of c }
{
    if c.tl.module <= 0.0 {
        return None;
    }
    if c.tr.module <= 0.0 {
        return None;
    }
    if c.bl.module <= 0.0 {
        return None;
    }
    Some(Version(nearest_version(side_in(c))))
}

// ---- the transform

// The finders' centres in modules and in pixels.
fn modules_of(side: f32) -> Triangle
    ensures { result ≡ modules_of side }
{
    let far = side - 3.5;
    Triangle {
        a: Point { x: 3.5, y: 3.5 },
        b: Point { x: far, y: 3.5 },
        c: Point { x: 3.5, y: far },
    }
}

fn pixels_of(c: Corners) -> Triangle
    ensures { result ≡ pixels_of c }
{
    Triangle {
        a: c.tl.centre(),
        b: c.tr.centre(),
        c: c.bl.centre(),
    }
}

fn affine(c: Corners, side: f32) -> Option<Transform>
    ensures { result ≡ affine_of c side }
{
    Transform::from_triangle(modules_of(side), pixels_of(c))
}

// Through the marker too, whose centre is 6.5 modules from the far sides.
fn homography(c: Corners, marker: Point, side: f32) -> Option<Transform>
    ensures { result ≡ homography_of c marker side }
{
    let s = modules_of(side);
    let d = pixels_of(c);
    let far = side - 6.5;
    let p0 = s.a;
    let p1 = s.b;
    let p2 = s.c;
    let q0 = d.a;
    let q1 = d.b;
    let q2 = d.c;
    Transform::from_quad(
        Quad {
            a: p0,
            b: p1,
            c: p2,
            d: Point { x: far, y: far },
        },
        Quad {
            a: q0,
            b: q1,
            c: q2,
            d: marker,
        },
    )
}

fn symbol_fit(c: Corners, marker: Option<Point>, v: Version) -> Option<Transform>
    ensures { result ≡ symbol_fit c marker v.0 }
{
    let side = v.side() as f32;
    match marker {
        Some(a) => {
            if v.get() < 2 {
                return affine(c, side);
            }
            homography(c, a, side).or_else(|| affine(c, side))
        }
        None => affine(c, side),
    }
}

// The map from the symbol's modules to pixels, or none; refused for a version outside 1 to 64.
pub fn build_transform(
    c: Corners,
    marker: Option<Point>,
    version: Version,
) -> Result<Option<Transform>, Refusal>
    ensures { result ≡ built_of c marker version.0 }
{
    let v = Version::new(version.0)?;
    Ok(symbol_fit(c, marker, v))
}
