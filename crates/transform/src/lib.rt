// The projective map from module coordinates to pixels, and the lens behind it. Positions are f32; the map's numbers and steps are f64.
#![tactic(auto)]

ghost use Rattle.std.specs.Prelude.{◌≡◌};
ghost use Rattle.transform.specs.Fit.{plain, zero_transform, identity_transform, widened, homography_rows, affine_rows, affine_numbers, quad_fit, triangle_fit};
ghost use Rattle.transform.specs.Apply.{linear_of, apart_of, projected, narrowed, placed, offset_of, divided, bent, applied, with_radial, center_of, distance2_of, distance_of, pitch_at, pitches_of};

use float::Float;
use lcr_core::point::Point;

#[derive(Clone, Copy)]
pub struct Triangle {
    pub a: Point,
    pub b: Point,
    pub c: Point,
}

#[derive(Clone, Copy)]
pub struct Quad {
    pub a: Point,
    pub b: Point,
    pub c: Point,
    pub d: Point,
}

// (u, v) goes to ((m0 u + m1 v + m2) / w, (m3 u + m4 v + m5) / w) with w = m6 u + m7 v + 1, and from there through a lens about (cx, cy), unless its
// strength is 0.
#[derive(Clone, Copy)]
pub struct Transform {
    pub m: [f64; 8],
    pub cx: f64,
    pub cy: f64,
    pub strength: f64,
}

// The least and the greatest module pitch of a symbol's corners.
#[derive(Clone, Copy)]
pub struct Pitches {
    pub least: f32,
    pub greatest: f32,
}

// A point in f64.
#[derive(Clone, Copy)]
struct Wide {
    x: f64,
    y: f64,
}

// An f32 is an f64 as it stands.
impl From<Point> for Wide {
    ghost from_gives = { λ p wide. wide ≡ widened p };

    fn from(p: Point) -> Wide {
        Wide {
            x: std::num::f32_to_f64_with_nan(p.x),
            y: std::num::f32_to_f64_with_nan(p.y),
        }
    }
}

// The nearest f32 of both.
impl From<Wide> for Point {
    ghost from_gives = { λ p point. point ≡ narrowed p };

    fn from(p: Wide) -> Point {
        Point {
            x: float::narrow(p.x),
            y: float::narrow(p.y),
        }
    }
}

// The two equations that take s to d.
fn homography_rows(s: Wide, d: Wide) -> [[f64; 8]; 2]
    ensures { result ≡ homography_rows s d }
{
    let u = s.x;
    let v = s.y;
    let x = -d.x;
    let y = -d.y;
    [
        [u, v, 1.0, 0.0, 0.0, 0.0, x * u, x * v],
        [0.0, 0.0, 0.0, u, v, 1.0, y * u, y * v],
    ]
}

fn affine_rows(s: Wide) -> [[f64; 6]; 2]
    ensures { result ≡ affine_rows s }
{
    [
        [s.x, s.y, 1.0, 0.0, 0.0, 0.0],
        [0.0, 0.0, 0.0, s.x, s.y, 1.0],
    ]
}

// The affine map of six numbers.
fn affine(x: [f64; 6]) -> Transform
    ensures { result ≡ plain (affine_numbers x) }
{
    Transform::plain([x[0], x[1], x[2], x[3], x[4], x[5], 0.0, 0.0])
}

impl Transform {
    pub const IDENTITY: Transform = Transform {
        m: [1.0, 0.0, 0.0, 0.0, 1.0, 0.0, 0.0, 0.0],
        cx: 0.0,
        cy: 0.0,
        strength: 0.0,
    };

    // Eight numbers without a lens.
    pub fn plain(m: [f64; 8]) -> Transform
        ensures { result ≡ plain m }
    {
        Transform {
            m,
            cx: 0.0,
            cy: 0.0,
            strength: 0.0,
        }
    }

    // Which takes (u, v) to (u, v).
    pub fn identity() -> Transform
        ensures { result ≡ identity_transform }
    {
        Transform::IDENTITY
    }

    // Every number 0.
    pub fn zero() -> Transform
        ensures { result ≡ zero_transform }
    {
        Transform::plain([0.0; 8])
    }

    // The homography that takes the four points of src to those of dst, or none.
    pub fn from_quad(src: Quad, dst: Quad) -> Option<Transform>
        ensures { result ≡ quad_fit src dst }
    {
        let d0 = Wide::from(dst.a);
        let d1 = Wide::from(dst.b);
        let d2 = Wide::from(dst.c);
        let d3 = Wide::from(dst.d);
        let r0 = homography_rows(Wide::from(src.a), d0);
        let r1 = homography_rows(Wide::from(src.b), d1);
        let r2 = homography_rows(Wide::from(src.c), d2);
        let r3 = homography_rows(Wide::from(src.d), d3);
        let a = [r0[0], r0[1], r1[0], r1[1], r2[0], r2[1], r3[0], r3[1]];
        let b = [d0.x, d0.y, d1.x, d1.y, d2.x, d2.y, d3.x, d3.y];
        math::solve(&a, &b).map(Transform::plain)
    }

    // The affine map that takes the three points of src to those of dst, or none.
    pub fn from_triangle(src: Triangle, dst: Triangle) -> Option<Transform>
        ensures { result ≡ triangle_fit src dst }
    {
        let d0 = Wide::from(dst.a);
        let d1 = Wide::from(dst.b);
        let d2 = Wide::from(dst.c);
        let r0 = affine_rows(Wide::from(src.a));
        let r1 = affine_rows(Wide::from(src.b));
        let r2 = affine_rows(Wide::from(src.c));
        let a = [r0[0], r0[1], r1[0], r1[1], r2[0], r2[1]];
        let b = [d0.x, d0.y, d1.x, d1.y, d2.x, d2.y];
        math::solve(&a, &b).map(affine)
    }

    // Where p goes, in f64.
    fn project(self, p: Wide) -> Wide
        ensures { result ≡ projected self.m p }
    {
        let m = self.m;
        let w = apart(linear(m[6], m[7], 1.0, p));
        Wide {
            x: linear(m[0], m[1], m[2], p) / w,
            y: linear(m[3], m[4], m[5], p) / w,
        }
    }

    // The pixel position of (u, v) without a lens. Inlined, since the template match asks for some thousand places a detection: called, it takes 7 % longer.
    #[inline(always)]
    pub fn place(self, u: f32, v: f32) -> Point
        ensures { result ≡ placed self.m u v }
    {
        let p = Wide::from(Point { x: u, y: v });
        Point::from(self.project(p))
    }

    // The pixel position to which the lens takes p, by four rounds of the division.
    fn bend(self, p: Wide) -> Point
        ensures { result ≡ bent self p }
    {
        let k = self.strength;
        let u = offset(p, self.cx, self.cy);
        let d = divide(k, u, divide(k, u, divide(k, u, divide(k, u, u))));
        Point {
            x: float::narrow(self.cx + d.x),
            y: float::narrow(self.cy + d.y),
        }
    }

    // The pixel position of (u, v).
    pub fn apply(self, u: f32, v: f32) -> Point
        ensures { result ≡ applied self u v }
    {
        if self.strength == 0.0 {
            return self.place(u, v);
        }
        self.bend(self.project(Wide::from(Point { x: u, y: v })))
    }

    // The same map through a lens about (cx, cy).
    pub fn with_radial(self, cx: f32, cy: f32, strength: f32) -> Transform
        ensures { result ≡ with_radial self cx cy strength }
    {
        let m = self.m;
        Transform {
            m,
            cx: std::num::f32_to_f64_with_nan(cx),
            cy: std::num::f32_to_f64_with_nan(cy),
            strength: std::num::f32_to_f64_with_nan(strength),
        }
    }

    // The pixel position of the centre of module (x, y).
    pub fn module_center(self, x: u16, y: u16) -> Point
        ensures { result ≡ center_of self x y }
    {
        self.apply(x as f32 + 0.5, y as f32 + 0.5)
    }

    // The module pitch in pixels near module (x, y).
    pub fn local_pitch(self, x: u16, y: u16) -> f32
        ensures { result ≡ pitch_at self x y }
    {
        let c = self.module_center(x, y);
        let r = self.apply(x as f32 + 1.5, y as f32 + 0.5);
        let d = self.apply(x as f32 + 0.5, y as f32 + 1.5);
        0.5 * (distance(c, r) + distance(c, d))
    }

    // The least and the greatest pitch of a symbol of so many modules on a side.
    pub fn pitch_range(self, side: u16) -> Pitches
        ensures { result ≡ pitches_of self side }
    {
        let far = side.saturating_sub(2);
        let a = self.local_pitch(0, 0);
        let b = self.local_pitch(far, 0);
        let c = self.local_pitch(0, far);
        let d = self.local_pitch(far, far);
        Pitches {
            least: float::min32(
                float::min32(float::min32(float::min32(1.0 / 0.0, a), b), c),
                d,
            ),
            greatest: float::max32(float::max32(float::max32(float::max32(0.0, a), b), c), d),
        }
    }
}

// ---- steps

// From (cx, cy) to p.
fn offset(p: Wide, cx: f64, cy: f64) -> Wide
    ensures { result ≡ offset_of p cx cy }
{
    Wide {
        x: p.x - cx,
        y: p.y - cy,
    }
}

// One round: the offset u, divided by what a lens of strength k makes of the offset d.
fn divide(k: f64, u: Wide, d: Wide) -> Wide
    ensures { result ≡ divided k u d }
{
    let s = 1.0 + k * (d.x * d.x + d.y * d.y);
    Wide {
        x: u.x / s,
        y: u.y / s,
    }
}

fn linear(a: f64, b: f64, c: f64, p: Wide) -> f64
    ensures { result ≡ linear_of a b c p }
{
    a * p.x + b * p.y + c
}

fn apart(w: f64) -> f64
    ensures { result ≡ apart_of w }
{
    if Float::abs(w) < 1e-9 { 1e-9 } else { w }
}

// The squared distance.
pub fn distance2(p: Point, q: Point) -> f32
    ensures { result ≡ distance2_of p q }
{
    let dx = p.x - q.x;
    let dy = p.y - q.y;
    dx * dx + dy * dy
}

// From p to q.
pub fn distance(p: Point, q: Point) -> f32
    ensures { result ≡ distance_of p q }
{
    float::sqrt32(distance2(q, p))
}
