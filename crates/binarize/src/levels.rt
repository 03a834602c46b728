// Levels of windows of blocks.
ghost use Rattle.std.specs.Prelude.{◌≡◌, ◌==◌, cond, ◌+◌, ◌-◌, ◌*◌, ◌≤◌, ◌<◌, length, ltb};
ghost use Rattle.std.specs.List.{list_any};
ghost use Rattle.lists.specs.Lists.{folded, at};
ghost use Rattle.blocks.specs.Blocks.{cells, about};
ghost use Rattle.blocks.specs.Rects.{cells_of};
ghost use Rattle.binarize.specs.Levels.{marked_means, any_marked, window_level, global_level};
ghost use Rattle.binarize.specs.Splits.{level_of, split_block, split_row, no_block, tally_of, InGrid};

use super::grid::Grid;
use super::split::Split;
use blocks::rect::Rect;

// The means and one kind of marks of blocks, in rows of `width` blocks.
#[derive(Clone, Copy)]
struct Marked<'a> {
    means: &'a [u8],
    marks: &'a [u8],
    width: usize,
}

impl Marked<'_> {
    // The blocks of a window's row y beside those that t counts, split at `bound`.
    #[tactic(auto, using(lists::proofs::Folds::fold_more, lists::proofs::Folds::fold_end), unfolding(crate::specs::Splits::split_row, crate::specs::Splits::split_column, crate::specs::Splits::split_block))]
    fn row_split(self, window: Rect, y: usize, bound: u8, t: Split) -> Split
        requires { (y * self.width + window.right ≤ length self.means.now) × (y * self.width + window.right ≤ length self.marks.now)
            × (t.lows + t.highs + (window.right - window.left) ≤ 8388607) }
        ensures counted { let m = self.entry in
            tally_of result ≡ split_row (at m.means.now) (at m.marks.now) bound m.width window.left window.right (tally_of t) y }
        ensures few { result.lows + result.highs ≤ t.lows + t.highs + (window.right - window.left) }
    {
        let from = y * self.width;
        let mut r = t;
        for x in window.left..window.right {
            r = r.with_block(self.means[from + x], self.marks[from + x], bound);
        }
        r
    }

    // The blocks in a window, split at `bound`.
    #[tactic(auto, using(lists::proofs::Folds::fold_more, lists::proofs::Numbers::next_row), unfolding(crate::specs::Splits::split_row))]
    fn window_split(self, window: Rect, bound: u8) -> Split
        requires { InGrid (length self.means.now) self.width window × InGrid (length self.marks.now) self.width window }
        ensures { let m = self.entry in
            tally_of result ≡ folded (split_block (at m.means.now) (at m.marks.now) bound) no_block (cells_of m.width window) }
    {
        let mut t = Split::new();
        for y in window.top..window.bottom {
            t = self.row_split(window, y, bound, t);
        }
        t
    }

    // The level of a window, where it holds a marked block.
    fn level_in(self, window: Rect) -> Option<u8>
        requires { InGrid (length self.means.now) self.width window × InGrid (length self.marks.now) self.width window }
        ensures { let m = self.entry in result ≡ level_of (marked_means (at m.means.now) (at m.marks.now) (cells_of m.width window)) }
    {
        let all = self.window_split(window, 0);
        if all.lows + all.highs == 0 {
            return None;
        }
        let mean = all.mean();
        let two = self.window_split(window, mean);
        Some(two.midpoint(mean))
    }
}

// The level of the window of a radius about the block in column x and row y, by one kind of marks.
fn level_about(grid: Grid, marks: &[u8], x: usize, y: usize, radius: usize) -> Option<u8>
    requires { (x < grid.width) × (y < grid.height) × (grid.height * grid.width ≤ length marks.now) × (radius ≤ 512) }
    ensures { let g = grid.entry in
        result ≡ level_of (marked_means (at g.means.now) (at marks.now) (cells g.width (about g.width x radius) (about g.height y radius))) }
{
    let window = Rect::about(grid.width, grid.height, x, y, radius);
    let marked = Marked {
        means: grid.means,
        marks,
        width: grid.width,
    };
    marked.level_in(window)
}

// The marks of a kind of window: the first two kinds go by the edge marks, the others by the near marks. It answers one of two lent slices, the form that
// document 01 names.
fn marks_of<'a>(edges: &'a [u8], nears: &'a [u8], kind: usize) -> &'a [u8]
    ensures { result.now ≡ cond (ltb kind 2) edges.now nears.now }
{
    if kind < 2 { edges } else { nears }
}

// The level of the block in column x and row y: the first of four windows that holds a marked block gives it, otherwise it is the global level.
// The loop yields its level by `break`, the form that document 01 names.
// It stays a call: most blocks need no window, and inlined its bounds are worked out for each block, which takes 4 % more instructions where few are marked.
#[tactic(auto, using(crate::proofs::LevelLaws::kind_steps))]
#[inline(never)]
pub fn block_level(grid: Grid, x: usize, y: usize, global: u8) -> u8
    requires { (x < grid.width) × (y < grid.height) }
    ensures { let g = grid.entry in result ≡ window_level (at g.means.now) (at g.edges.now) (at g.nears.now) g.width g.height x y global }
{
    let mut kind = 0;
    loop {
        if kind == 4 {
            break global;
        }
        let marks = marks_of(grid.edges, grid.nears, kind);
        if let Some(v) = level_about(grid, marks, x, y, 2 + kind % 2 * 2) {
            break v;
        }
        kind += 1;
    }
}

// Whether a block is marked.
fn any_mark(marks: &[u8]) -> bool
    ensures { result ≡ list_any (λ mark. mark == 1) marks.now }
{
    marks.iter().any(|mark| *mark == 1)
}

// The edge marks if any of n blocks has one, otherwise the near marks. It answers one of two lent slices too.
fn chosen<'a>(edges: &'a [u8], nears: &'a [u8], n: usize) -> &'a [u8]
    requires { n ≤ length edges.now }
    ensures { result.now ≡ cond (any_marked (at edges.now) n) edges.now nears.now }
{
    if any_mark(&edges[..n]) { edges } else { nears }
}

// The level over all blocks of the picture, 0 where none is marked.
#[tactic(auto, using(crate::proofs::LevelLaws::global_is))]
pub fn global_level(grid: Grid) -> u8
    ensures { let g = grid.entry in result ≡ global_level (at g.means.now) (at g.edges.now) (at g.nears.now) g.width g.height }
{
    let n = grid.height * grid.width;
    let marks = chosen(grid.edges, grid.nears, n);
    let all = Rect {
        left: 0,
        right: n,
        top: 0,
        bottom: 1,
    };
    let marked = Marked {
        means: grid.means,
        marks,
        width: n,
    };
    marked.level_in(all).unwrap_or(0)
}
