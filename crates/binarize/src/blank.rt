// Columns without marks: the windows about most blocks of most pictures hold no marked one, and their level is the global one.
ghost use Rattle.std.specs.Prelude.{◌≡◌, ◌==◌, ◌+◌, ◌-◌, ◌≤◌, ◌<◌, min, length};
ghost use Rattle.std.specs.List.{list_all};
ghost use Rattle.lists.specs.Lists.{filled, at};
ghost use Rattle.binarize.specs.Levels.{window_level};
ghost use Rattle.binarize.specs.Flags.{flagged, Flagged};

use super::grid::Grid;
use super::levels::block_level;
use blocks::rect::Rect;

// 1 where a block is marked, otherwise the flag as it was.
#[tactic(auto, unfolding(crate::specs::Flags::flagged))]
fn flag_with(mark: u8, flag: u8) -> u8
    ensures { result ≡ flagged mark flag }
{
    if mark == 1 { 1 } else { flag }
}

// Flags the columns that are marked in the row that begins at number `from`.
#[tactic(auto, using(lists::proofs::Tabulate::filled_none, lists::proofs::Tabulate::filled_step, crate::proofs::FlagLaws::filled_rest))]
fn flag_row(marks: &[u8], from: usize, w: usize, flags: &mut [u8])
    requires { (from + w ≤ length marks.now) × (w ≤ length flags.old) }
    ensures { flags.new ≡ filled w (λ x. flagged (at marks.now (from + x)) (at flags.old x)) flags.old }
{
    for x in 0..w {
        flags[x] = flag_with(marks[from + x], flags[x]);
    }
}

// Flags the columns that have an edge mark or a near mark in the rows `top` to `bottom`.
#[tactic(auto, using(crate::proofs::FlagLaws::flags_none))]
pub fn flag_columns(grid: Grid, top: usize, bottom: usize, flags: &mut [u8])
    requires { (top ≤ bottom) × (bottom ≤ grid.height) × (grid.width ≤ length flags.old) }
    ensures { let g = grid.entry in Flagged (at g.edges.now) (at g.nears.now) g.width top bottom flags.new }
{
    for y in top..bottom {
        flag_row(grid.edges, y * grid.width, grid.width, flags);
        flag_row(grid.nears, y * grid.width, grid.width, flags);
    }
}

// Whether no column is flagged.
fn none_flagged(flags: &[u8]) -> bool
    ensures { result ≡ list_all (λ flag. flag == 0) flags.now }
{
    flags.iter().all(|flag| *flag == 0)
}

// The level of the block in column x and row y, where the columns with marks in the rows about it are flagged.
pub fn level_by(grid: Grid, x: usize, y: usize, global: u8, flags: &[u8]) -> u8
    requires { (x < grid.width) × (y < grid.height) × (grid.width ≤ length flags.now)
        × Flagged (at grid.edges.now) (at grid.nears.now) grid.width (y - 4) (min grid.height (y + 4 + 1)) flags.now }
    ensures { let g = grid.entry in result ≡ window_level (at g.means.now) (at g.edges.now) (at g.nears.now) g.width g.height x y global }
{
    let near = Rect::about(grid.width, grid.height, x, y, 4);
    if none_flagged(&flags[near.left..near.right]) {
        return global;
    }
    block_level(grid, x, y, global)
}
