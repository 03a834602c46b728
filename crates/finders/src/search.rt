// The search along rows and columns.
ghost use Rattle.std.specs.Prelude.{◌≡◌, ◌+◌, ◌-◌, ◌^◌, ◌≤◌};
ghost use Rattle.lcr_core.specs.Passed.{Sides};
ghost use Rattle.lcr_core.specs.Outcome.{max_side};
ghost use Rattle.binary.specs.Line.{pixel};
ghost use Rattle.finders.specs.Held.{held};
ghost use Rattle.finders.specs.Answer.{held_in};
ghost use Rattle.finders.specs.Inner.{EndsWith, Good, FitsIn, NextIs, SightedIs, line_at, line_len, line_count, scanned, axis, axis_most};

use crate::Finders;
use binary::line::Line;
use binary::picture::BitPicture;
use confirm::confirm_hit;
use lcr_core::Refusal;
use lcr_core::point::Point;

// The last three runs of a line before pixel `at`, the last a dark one.
#[derive(Clone, Copy)]
pub struct LastRuns {
    pub c: u16,
    pub d: u16,
    pub e: u16,
    pub at: u16,
}

// A hit's centre and module, and the last runs after it.
#[derive(Clone, Copy)]
pub struct NextHit {
    pub centre: f32,
    pub module: f32,
    pub after: LastRuns,
}

// A confirmed hit's point and module, and the last runs after it.
#[derive(Clone, Copy)]
pub struct NextSighting {
    pub point: Point,
    pub module: f32,
    pub after: LastRuns,
}

// The first hit of the line after a window.
fn next_hit(line: Line<'_>, window: LastRuns) -> Option<NextHit>
    requires { FitsIn line.len window }
    ensures { let l = line.entry in NextIs (pixel l.bits.now l.start l.stride) l.len window result }
{
    // A turn is two runs long, so no range counts it.
    let mut w = window;
    while w.at < line.len {
        let light = line.run_on(w.at, line.len - w.at, false);
        let next = w.at + light;
        let dark = line.run_on(next, line.len - next, true);
        let end = next + dark;
        let after = LastRuns {
            c: w.e,
            d: light,
            e: dark,
            at: end,
        };
        if let Some(module) = ratio::matches_finder(w.c, w.d, w.e, light, dark) {
            let centre = end as f32 - dark as f32 - light as f32 - w.e as f32 / 2.0;
            return Some(NextHit {
                centre,
                module,
                after,
            });
        }
        w = after;
    }
    None
}

// Row or column `number`. The three go one by one here and below: a struct of them would hold once more what the line that they give holds.
fn line_at(picture: BitPicture<'_>, columns: bool, number: u16) -> Line<'_>
    ensures pixels { let p = picture.entry in pixel result.bits.now result.start result.stride ≡ line_at p.bits.now p.width columns number }
    ensures len { let p = picture.entry in result.len ≡ line_len p.width p.height columns }
{
    if columns {
        return picture.column(number);
    }
    picture.row(number)
}

// The first confirmed hit of row or column `number` after a window.
#[tactic(auto, using(crate::proofs::Axes::sighted_first, crate::proofs::Axes::sighted_later), unfolding(lists::specs::Lists::flat_map))]
fn next_sighting(
    picture: BitPicture<'_>,
    columns: bool,
    number: u16,
    window: LastRuns,
) -> Option<NextSighting>
    requires { FitsIn (line_len picture.width picture.height columns) window }
    ensures { let p = picture.entry in SightedIs p.bits.now p.width p.height columns number window result }
{
    let line = line_at(picture, columns, number);
    let mut w = window;
    while let Some(hit) = next_hit(line, w) {
        if let Some(point) = confirm_hit(picture, columns, number, hit.centre, hit.module) {
            return Some(NextSighting {
                point,
                module: hit.module,
                after: hit.after,
            });
        }
        w = hit.after;
    }
    None
}

// What the confirmed hits of row or column `number` add to the finders; refusal 6 where a place is missing.
fn scan_line(
    picture: BitPicture<'_>,
    columns: bool,
    number: u16,
    t: &mut Finders,
) -> Result<(), Refusal>
    requires sides { Sides picture.width picture.height }
    requires good { Good t.old (2 ^ 32 - 2 - max_side) }
    ensures { let p = picture.entry in EndsWith (scanned p.bits.now p.width p.height columns (held (held_in t.old)) number) result t.new }
{
    let line = line_at(picture, columns, number);
    let first = line.run_on(0, line.len, true);
    let mut w = LastRuns {
        c: 0,
        d: 0,
        e: first,
        at: first,
    };
    while let Some(s) = next_sighting(picture, columns, number, w) {
        t.merge_held(s.point, s.module)?;
        w = s.after;
    }
    Ok(())
}

fn line_count(picture: BitPicture<'_>, columns: bool) -> u16
    ensures { let p = picture.entry in result ≡ line_count p.width p.height columns }
{
    if columns {
        return picture.width;
    }
    picture.height
}

// Every second row, or every second column, from 0 on.
pub fn scan_axis(picture: BitPicture<'_>, columns: bool, t: &mut Finders) -> Result<(), Refusal>
    requires sides { Sides picture.width picture.height }
    requires good { Good t.old axis_most }
    ensures { let p = picture.entry in EndsWith (axis p.bits.now p.width p.height columns (held (held_in t.old))) result t.new }
{
    let half = line_count(picture, columns).div_ceil(2);
    for k in 0..half {
        scan_line(picture, columns, 2 * k, t)?;
    }
    Ok(())
}
