// The runs of a row and of a column, and the nearest marker.
ghost use Rattle.std.specs.Prelude.{◌≡◌, false, ◌+◌, ◌-◌, ◌*◌, ◌≤◌, ◌<◌};
ghost use Rattle.binary.specs.Line.{pixel, column, run_back};
ghost use Rattle.row_search.specs.Rows.{near_module, runs_match, middle_of, column_runs, column_limit, confirm_marker, marker_by_runs, row_runs, nearer_of, row_nearest, nearest_of};

use crate::window::Window;
use binary::line::Line;
use binary::picture::BitPicture;
use float::{Float, to_u32};
use lcr_core::point::Point;
use transform::distance2;

// A light, a dark and a light run, and the pixel at which the dark one starts.
#[derive(Clone, Copy)]
pub struct Runs {
    pub before: u16,
    pub dark: u16,
    pub after: u16,
    pub start: u16,
}

// Whether a run is a module long, give or take 0.7 of it.
#[tactic(auto, unfolding(crate::specs::Rows::near_module))]
fn near_module(n: u16, module: f32) -> bool
    ensures { result ≡ near_module «module» n }
{
    Float::abs(n as f32 - module) <= module * 0.7
}

impl Runs {
    // Whether each of the three is.
    #[tactic(auto, unfolding(crate::specs::Rows::runs_match))]
    fn matches_alignment(self, module: f32) -> bool
        ensures { result ≡ runs_match «module» self }
    {
        near_module(self.before, module)
            & near_module(self.dark, module)
            & near_module(self.after, module)
    }

    // The middle of the dark run.
    #[tactic(auto, unfolding(crate::specs::Rows::middle_of))]
    fn middle(self) -> f32
        ensures { result ≡ middle_of self }
    {
        self.start as f32 + self.dark as f32 / 2.0
    }
}

// Three modules, truncated, and 3 pixels more.
#[tactic(auto, unfolding(crate::specs::Rows::column_limit))]
fn column_limit(module: f32) -> u64
    ensures { result ≡ column_limit «module» }
{
    to_u32(module * 3.0) as u64 + 3
}

// The nearer to p of the nearest so far and what is found; the earlier one where neither is nearer.
#[tactic(auto, unfolding(crate::specs::Rows::nearer_of))]
fn nearer(p: Point, nearest: Option<Point>, found: Option<Point>) -> Option<Point>
    ensures { result ≡ nearer_of p nearest found }
{
    match found {
        Some(s) => match nearest {
            Some(b) => {
                if distance2(s, p) < distance2(b, p) {
                    found
                } else {
                    nearest
                }
            }
            None => found,
        },
        None => nearest,
    }
}

// A picture and its part that is searched, with the place and the module that are predicted.
#[derive(Clone, Copy)]
pub struct Search<'a> {
    pub picture: BitPicture<'a>,
    pub window: Window,
    pub predicted: Point,
    pub module: f32,
    pub ghost narrow: { picture.width ≤ 4096 },
    pub ghost inside: { window.bottom ≤ picture.height },
}

impl<'a> Search<'a> {
    // The dark run about a dark pixel y of column x, and the light ones before and after it, each run to the limit.
    #[tactic(auto, unfolding(crate::specs::Rows::column_runs))]
    fn column_runs(&self, x: u16, y: u16) -> Runs
        requires { y < self.now.picture.height }
        ensures { let s = self.now in let p = s.picture in result ≡ column_runs (column p.bits.now p.width x) p.height y (column_limit s.«module») }
    {
        let pixels = self.picture.column(x);
        let limit = column_limit(self.module);
        let up = pixels.run_back(y, limit.min(y as u64) as u16, true);
        let below = y + 1;
        let down = pixels.run_on(below, limit.min((pixels.len - below) as u64) as u16, true);
        let top = y - up;
        let next = below + down;
        Runs {
            before: pixels.run_back(top, limit.min(top as u64) as u16, false),
            dark: up + down + 1,
            after: pixels.run_on(next, limit.min((pixels.len - next) as u64) as u16, false),
            start: top,
        }
    }

    // The marker with its centre at cx, confirmed down the column from row y.
    #[tactic(auto, using(crate::proofs::ColumnLaws::dark_within), unfolding(crate::specs::Rows::confirm_marker))]
    fn confirm_alignment_vertical(&self, cx: f32, y: u16) -> Option<Point>
        requires { y < self.now.picture.height }
        ensures { let s = self.now in result ≡ confirm_marker s.picture.bits.now s.picture.width s.picture.height s.«module» y cx }
    {
        let x = to_u32(cx);
        if self.picture.dark(x, y as u32) {
            let r = self.column_runs(x as u16, y);
            if r.matches_alignment(self.module) {
                return Some(Point {
                    x: cx,
                    y: r.middle(),
                });
            }
        }
        None
    }

    // The marker whose runs along row y are r.
    #[tactic(auto, unfolding(crate::specs::Rows::marker_by_runs))]
    fn marker_by_runs(&self, y: u16, r: Runs) -> Option<Point>
        requires { y < self.now.picture.height }
        ensures { let s = self.now in result ≡ marker_by_runs s.picture.bits.now s.picture.width s.picture.height s.«module» y r }
    {
        if r.matches_alignment(self.module) {
            return self.confirm_alignment_vertical(r.middle(), y);
        }
        None
    }

    // The dark run that starts at pixel x of a row, and the light runs before it, which is known, and after it, within the window's columns.
    #[tactic(auto, unfolding(crate::specs::Rows::row_runs))]
    fn row_runs(&self, row: Line<'_>, x: u16, before: u16) -> Runs
        requires { let v = self.now.window in (v.left < x) × (x < v.right) × (before ≡ run_back false (pixel row.bits.now row.start row.stride) x (x - v.left)) }
        ensures value { let v = self.now.window in let l = row.entry in result ≡ row_runs (pixel l.bits.now l.start l.stride) v.left v.right x }
        ensures dark_bound { let right = self.now.window.right in (result.dark ≤ right - x) × (result.after ≤ right - (x + result.dark)) }
    {
        let right = self.window.right;
        let dark = row.run_on(x, right - x, true);
        let next = x + dark;
        let after = row.run_on(next, right - next, false);
        Runs {
            before,
            dark,
            after,
            start: x,
        }
    }

    // Row y, from dark run to dark run.
    #[tactic(auto, using(lists::proofs::Folds::fold_end), unfolding(crate::specs::Rows::row_nearest))]
    fn search_row(&self, nearest: Option<Point>, y: u16) -> Option<Point>
        requires { y < self.now.picture.height }
        ensures { let s = self.now in result ≡ row_nearest s.picture.bits.now s.picture.width s.picture.height s.«module» s.window s.predicted nearest y }
    {
        let left = self.window.left;
        let right = self.window.right;
        if right <= left {
            return nearest;
        }
        let row = self.picture.row(y);
        let next = left + row.run_on(left, right - left, true);
        let mut light = row.run_on(next, right - next, false);
        let mut x = next + light;
        let mut nearest = nearest;
        // A `while`, since a step is as long as the two runs that the pixels show.
        while x < right {
            let r = self.row_runs(row, x, light);
            nearest = nearer(self.predicted, nearest, self.marker_by_runs(y, r));
            light = r.after;
            x = x + r.dark + r.after;
        }
        nearest
    }

    // The marker nearest to the predicted place in the window.
    #[tactic(auto, using(lists::proofs::Folds::fold_more, lists::proofs::Folds::fold_end), unfolding(crate::specs::Rows::nearest_of))]
    pub fn nearest_marker(&self) -> Option<Point>
        ensures { let s = self.now in result ≡ nearest_of s.picture.bits.now s.picture.width s.picture.height s.«module» s.window s.predicted }
    {
        let mut nearest = None;
        for y in self.window.top..self.window.bottom {
            nearest = self.search_row(nearest, y);
        }
        nearest
    }
}
