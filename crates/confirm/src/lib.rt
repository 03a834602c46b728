// A hit on a scanned line is confirmed on both axes: the runs about its place have to pass there too.
#![tactic(auto)]

ghost use Rattle.std.specs.Prelude.{◌≡◌, ◌+◌, ◌≤◌, ◌<◌};
ghost use Rattle.binary.specs.Line.{pixel};
ghost use Rattle.confirm.specs.Confirm.{confirm_limit, is_cut, side_by, side_before, side_after, core_centre, core_of, confirm_vertical, confirm_horizontal, row_confirmed, column_confirmed, confirmed_on};

use binary::line::{End, Line, Run};
use binary::picture::BitPicture;
use lcr_core::point::Point;

// The runs beyond a core on one side, and whether the limit ended one of them.
#[derive(Clone, Copy)]
pub struct Side {
    pub light: u16,
    pub dark: u16,
    pub cut: bool,
}

// The number of pixels after which a run stops.
fn confirm_limit(module: f32) -> u64
    ensures { result ≡ confirm_limit «module» }
{
    float::to_u32(module * 5.0) as u64 + 4
}

// Whether the limit ended a run.
fn is_cut(end: End) -> bool
    ensures { result ≡ is_cut end }
{
    end == End::Limit
}

fn side_by(light: Run, dark: Run) -> Side
    ensures { result ≡ side_by light dark }
{
    Side {
        light: light.count,
        dark: dark.count,
        cut: is_cut(light.end) | is_cut(dark.end),
    }
}

#[tactic(auto, unfolding(crate::specs::Confirm::side_before))]
fn side_before(line: Line<'_>, from: u16, limit: u64) -> Side
    ensures { let l = line.entry in result ≡ side_before (pixel l.bits.now l.start l.stride) limit from }
{
    let light = line.limited_back(from, limit, false);
    let dark = line.limited_back(from - light.count, limit, true);
    side_by(light, dark)
}

#[tactic(auto, unfolding(crate::specs::Confirm::side_after))]
fn side_after(line: Line<'_>, from: u16, limit: u64) -> Side
    requires { from ≤ line.len }
    ensures { let l = line.entry in result ≡ side_after (pixel l.bits.now l.start l.stride) l.len limit from }
{
    let light = line.limited_on(from, limit, false);
    let dark = line.limited_on(from + light.count, limit, true);
    side_by(light, dark)
}

// The centre of a core of so many pixels that starts at pixel `top`, where the runs pass.
#[tactic(auto, unfolding(crate::specs::Confirm::core_centre))]
fn core_centre(a: Side, core: u16, b: Side, top: u16) -> Option<f32>
    ensures { result ≡ core_centre a core b top }
{
    ratio::matches_finder(a.dark, a.light, core, b.light, b.dark)?;
    Some(top as f32 + core as f32 / 2.0)
}

// The centre of the core about the dark pixel i of a line, where the runs pass and the limit ended none.
#[tactic(auto, unfolding(crate::specs::Confirm::any_cut, crate::specs::Confirm::counted_of, crate::specs::Confirm::core_of))]
fn core_on(line: Line<'_>, i: u16, module: f32) -> Option<f32>
    requires { i < line.len }
    ensures { let l = line.entry in result ≡ core_of (pixel l.bits.now l.start l.stride) l.len i (confirm_limit «module») }
{
    let limit = confirm_limit(module);
    let up = line.limited_back(i, limit, true);
    let down = line.limited_on(i + 1, limit, true);
    let core = up.count + down.count + 1;
    let top = i - up.count;
    let a = side_before(line, top, limit);
    let b = side_after(line, i + 1 + down.count, limit);
    if is_cut(up.end) | is_cut(down.end) | a.cut | b.cut {
        return None;
    }
    core_centre(a, core, b, top)
}

// The finder's y on column x, about row y.
#[tactic(auto, using(crate::proofs::Inside::dark_inside), unfolding(crate::specs::Confirm::vertical_by))]
pub fn confirm_vertical(picture: BitPicture<'_>, x: u32, y: u32, module: f32) -> Option<f32>
    ensures { let p = picture.entry in result ≡ confirm_vertical p.bits.now p.width p.height x y «module» }
{
    if picture.dark(x, y) {
        return core_on(picture.column(x as u16), y as u16, module);
    }
    None
}

// The finder's x on row y, about column x.
#[tactic(auto, using(crate::proofs::Inside::dark_inside), unfolding(crate::specs::Confirm::horizontal_by))]
pub fn confirm_horizontal(picture: BitPicture<'_>, x: u32, y: u32, module: f32) -> Option<f32>
    ensures { let p = picture.entry in result ≡ confirm_horizontal p.bits.now p.width p.height x y «module» }
{
    if picture.dark(x, y) {
        return core_on(picture.row(y as u16), x as u16, module);
    }
    None
}

// A hit on a row is confirmed down, then across.
#[tactic(auto, unfolding(crate::specs::Confirm::row_by))]
fn confirm_row(picture: BitPicture<'_>, row: u16, centre: f32, module: f32) -> Option<Point>
    ensures { let p = picture.entry in result ≡ row_confirmed p.bits.now p.width p.height row centre «module» }
{
    let column = float::to_u32(centre);
    let y = confirm_vertical(picture, column, row as u32, module)?;
    let x = confirm_horizontal(picture, column, float::to_u32(y), module)?;
    Some(Point { x, y })
}

// A hit on a column is confirmed across, then down.
#[tactic(auto, unfolding(crate::specs::Confirm::column_by))]
fn confirm_column(picture: BitPicture<'_>, column: u16, centre: f32, module: f32) -> Option<Point>
    ensures { let p = picture.entry in result ≡ column_confirmed p.bits.now p.width p.height column centre «module» }
{
    let row = float::to_u32(centre);
    let x = confirm_horizontal(picture, column as u32, row, module)?;
    let y = confirm_vertical(picture, float::to_u32(x), row, module)?;
    Some(Point { x, y })
}

// The finder of a hit of so large a module at `centre` of row or column `number`.
#[tactic(auto, unfolding(crate::specs::Confirm::confirmed_by))]
pub fn confirm_hit(
    picture: BitPicture<'_>,
    columns: bool,
    number: u16,
    centre: f32,
    module: f32,
) -> Option<Point>
    ensures { let p = picture.entry in result ≡ confirmed_on p.bits.now p.width p.height columns number centre «module» }
{
    if columns {
        return confirm_column(picture, number, centre, module);
    }
    confirm_row(picture, number, centre, module)
}
