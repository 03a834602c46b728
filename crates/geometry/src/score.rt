// How well three finders fit the corners of a symbol.
ghost use Rattle.std.specs.Prelude.{◌≡◌};
ghost use Rattle.geometry.specs.Score.{mean_of, out_by_pitch, dot_of, corner_score, admissible_corners, score_of, admissible, score_if};

use super::{Corners, Finder, order_finders, span};
use float::Float;

// The mean of the modules.
pub fn mean_module(a: Finder, b: Finder, c: Finder) -> f32
    ensures { result ≡ mean_of a b c }
{
    (a.module + b.module + c.module) / 3.0
}

fn out_by_pitch(a: Finder, b: Finder, c: Finder) -> bool
    ensures { result ≡ out_by_pitch a b c }
{
    let mean = mean_module(a, b, c);
    let da = float::max32(0.0, Float::abs(a.module - mean));
    let db = float::max32(da, Float::abs(b.module - mean));
    let spread = float::max32(db, Float::abs(c.module - mean));
    spread > mean * 0.5
}

fn dot(f: Corners) -> f32
    ensures { result ≡ dot_of f }
{
    (f.tr.x - f.tl.x) * (f.bl.x - f.tl.x) + (f.tr.y - f.tl.y) * (f.bl.y - f.tl.y)
}

// How far the corner is from a right angle with equal legs.
fn right_angle_score(f: Corners) -> Option<f32>
    ensures { result ≡ score_if (admissible_corners f) (corner_score f) }
{
    let n1 = span(f.tl, f.tr);
    let n2 = span(f.tl, f.bl);
    if n1 < 1.0 {
        return None;
    }
    if n2 < 1.0 {
        return None;
    }
    let cos = Float::abs(dot(f) / (n1 * n2));
    if cos > 0.7 {
        return None;
    }
    let ratio = float::max32(n1 / n2, n2 / n1);
    if ratio > 1.6 {
        return None;
    }
    let score = cos + (ratio - 1.0);
    if score != score {
        return None;
    }
    Some(score)
}

// The score of an admissible triple; lower is better.
pub fn triple_score(a: Finder, b: Finder, c: Finder) -> Option<f32>
    ensures { result ≡ score_if (admissible a b c) (score_of a b c) }
{
    if out_by_pitch(a, b, c) {
        None
    } else {
        right_angle_score(order_finders(a, b, c))
    }
}
