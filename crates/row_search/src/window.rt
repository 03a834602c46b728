// The part of the picture that is searched.
ghost use Rattle.std.specs.Prelude.{◌≡◌, ◌≤◌, ◌<◌};
ghost use Rattle.row_search.specs.Rows.{clamp, clamp_right, window_of};

use float::{max32, to_i32};
use lcr_core::point::Point;

// The columns from left on, before right; the rows from top on, before bottom.
#[derive(Clone, Copy)]
pub struct Window {
    pub left: u16,
    pub right: u16,
    pub top: u16,
    pub bottom: u16,
}

// z, kept within 0 and n.
fn clamp(z: i64, n: u16) -> u16
    ensures value { result ≡ clamp n z }
    ensures upper_bound { result ≤ n }
{
    if z < 0 {
        return 0;
    }
    if z < n as i64 { z as u16 } else { n }
}

// The same, but n where z is negative.
fn clamp_right(z: i64, n: u16) -> u16
    ensures { result ≡ clamp_right n z }
{
    if z < 0 {
        return n;
    }
    clamp(z, n)
}

// The window about p, of so many pixels either way as five modules have, and of 6 at least.
#[tactic(auto, using(crate::proofs::Windows::difference_is, crate::proofs::Windows::sum_is, crate::proofs::Windows::next_is), unfolding(crate::specs::Rows::window_of, crate::specs::Rows::radius_of))]
pub fn window_about(p: Point, module: f32, width: u16, height: u16) -> Window
    requires { 0 < width }
    ensures value { result ≡ window_of p «module» width height }
    ensures bottom_le_height { result.bottom ≤ height }
{
    let r = to_i32(max32(module * 5.0, 6.0)) as i64;
    let x = to_i32(p.x) as i64;
    let y = to_i32(p.y) as i64;
    Window {
        left: clamp(x - r, width),
        right: clamp_right(x + r, width - 1),
        top: clamp(y - r, height),
        bottom: clamp(y + r + 1, height),
    }
}
