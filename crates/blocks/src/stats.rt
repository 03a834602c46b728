// The sum, the least and the greatest of a rectangle of values, and the values of each block.
ghost use Rattle.std.specs.Prelude.{◌≡◌, ◌+◌, ◌-◌, ◌*◌, ◌≤◌, ◌<◌, length};
ghost use Rattle.lists.specs.Lists.{range, folded, filled};
ghost use Rattle.blocks.specs.Blocks.{blocks_in, mean_at, least_at, greatest_at};
ghost use Rattle.blocks.specs.Rects.{cells_of, InRect, IsBlock};
ghost use Rattle.blocks.specs.Steps.{with_value, cell_step, column_step, no_value};

use super::picture::GrayPicture;
use super::rect::Rect;

#[derive(Clone, Copy)]
pub struct Stats {
    pub sum: u32,
    pub least: u8,
    pub greatest: u8,
}

// One value more than those in t.
fn with_value(t: Stats, v: u8) -> Stats
    requires { t.sum ≤ 65280 }
    ensures { (result ≡ with_value t v) × (result.sum ≤ t.sum + 255) }
{
    Stats {
        sum: t.sum + v as u32,
        least: t.least.min(v),
        greatest: t.greatest.max(v),
    }
}

// The values in the columns from a on below b, of the row that begins at number `from`, beside those in t.
#[tactic(auto, using(lists::proofs::Folds::fold_more, lists::proofs::Folds::fold_end), unfolding(crate::specs::Steps::column_step, crate::specs::Steps::cell_step))]
fn row_stats(s: &[u8], from: usize, a: usize, b: usize, t: Stats) -> Stats
    requires { (a ≤ b) × (from + b ≤ length s.now) × (t.sum + 255 * (b - a) ≤ 65280) }
    ensures { (result ≡ folded (column_step s.now from) t (range a b)) × (result.sum ≤ t.sum + 255 * (b - a)) }
{
    let mut r = t;
    for x in a..b {
        r = with_value(r, s[from + x]);
    }
    r
}

// The values in a rectangle of rows of w values.
#[tactic(auto, using(lists::proofs::Folds::fold_more, lists::proofs::Numbers::next_row), unfolding(crate::specs::Steps::row_step))]
pub fn rect_stats(s: &[u8], w: usize, rect: Rect) -> Stats
    requires { InRect (length s.now) w rect }
    ensures { (result ≡ folded (cell_step s.now) no_value (cells_of w rect)) × (result.sum ≤ 255 * ((rect.bottom - rect.top) * (rect.right - rect.left))) }
{
    let mut t = Stats {
        sum: 0,
        least: 255,
        greatest: 0,
    };
    for y in rect.top..rect.bottom {
        t = row_stats(s, y * w, rect.left, rect.right, t);
    }
    t
}

impl GrayPicture<'_> {
    // The pixels of block number i.
    fn block(self, i: usize) -> Rect
        requires { i < blocks_in self.width self.height }
        ensures { IsBlock self.entry.width self.entry.height i result }
    {
        let left = i % self.columns() * 8;
        let top = i / self.columns() * 8;
        Rect {
            left,
            right: self.width.min(left + 8),
            top,
            bottom: self.height.min(top + 8),
        }
    }
}

// The mean, the least and the greatest value of a block.
#[derive(Clone, Copy)]
pub struct Values {
    pub mean: u8,
    pub least: u8,
    pub greatest: u8,
}

// The values of block number i.
#[tactic(auto, using(lists::proofs::Numbers::mean_small))]
fn values_of(picture: GrayPicture, i: usize) -> Values
    requires { i < blocks_in picture.width picture.height }
    ensures { let p = picture.entry in (result.mean ≡ mean_at p.gray.now p.width p.height i) × (result.least ≡ least_at p.gray.now p.width p.height i)
        × (result.greatest ≡ greatest_at p.gray.now p.width p.height i) }
{
    let block = picture.block(i);
    let t = rect_stats(picture.gray, picture.width, block);
    let size = (block.bottom - block.top) * (block.right - block.left);
    Values {
        mean: (t.sum as usize / size) as u8,
        least: t.least,
        greatest: t.greatest,
    }
}

// The values of every block. It is lent three slices and not a `Blocks`, of which the contract would also have to say that the other fields stay.
#[tactic(auto, using(lists::proofs::Tabulate::filled_none, lists::proofs::Tabulate::filled_step))]
pub fn all_values(picture: GrayPicture, means: &mut [u8], least: &mut [u8], greatest: &mut [u8])
    requires { let n = blocks_in picture.width picture.height in (n ≤ length means.old) × (n ≤ length least.old) × (n ≤ length greatest.old) }
    ensures means_after { let p = picture.entry in means.new ≡ filled (blocks_in p.width p.height) (mean_at p.gray.now p.width p.height) means.old }
    ensures least_after { let p = picture.entry in least.new ≡ filled (blocks_in p.width p.height) (least_at p.gray.now p.width p.height) least.old }
    ensures greatest_after { let p = picture.entry in greatest.new ≡ filled (blocks_in p.width p.height) (greatest_at p.gray.now p.width p.height) greatest.old }
{
    for i in 0..picture.rows() * picture.columns() {
        let v = values_of(picture, i);
        means[i] = v.mean;
        least[i] = v.least;
        greatest[i] = v.greatest;
    }
}
