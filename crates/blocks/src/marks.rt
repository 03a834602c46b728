// Edge marks and near marks.
ghost use Rattle.std.specs.Prelude.{◌≡◌, ◌*◌, ◌≤◌, ◌<◌, length};
ghost use Rattle.lists.specs.Lists.{filled, at};
ghost use Rattle.blocks.specs.Blocks.{mark as mark_of, edge_mark, near_mark};

use super::rect::Rect;
use super::stats::rect_stats;

// A block is marked where its spread, greatest less least value, exceeds this.
const MIN_DYNAMIC_RANGE: u32 = 24;

// The mark of a block or of a neighbourhood with this least and this greatest value.
#[tactic(auto, using(crate::proofs::Marking::made))]
fn mark(least: u8, greatest: u8) -> u8
    ensures { result ≡ mark_of least greatest }
{
    u8::from(least as u32 + MIN_DYNAMIC_RANGE < greatest as u32)
}

// The edge mark of each of n blocks, from their least and greatest values.
#[tactic(auto, using(lists::proofs::Tabulate::filled_none, lists::proofs::Tabulate::filled_step))]
pub fn edge_marks(least: &[u8], greatest: &[u8], n: usize, edges: &mut [u8])
    requires { (n ≤ length least.now) × (n ≤ length greatest.now) × (n ≤ length edges.old) }
    ensures { edges.new ≡ filled n (edge_mark (at least.now) (at greatest.now)) edges.old }
{
    for i in 0..n {
        edges[i] = mark(least[i], greatest[i]);
    }
}

// The near mark of block number i.
fn near_mark(least: &[u8], greatest: &[u8], bw: usize, bh: usize, i: usize) -> u8
    requires { (i < bh * bw) × (bw ≤ 512) × (bh ≤ 512) × (bh * bw ≤ length least.now) × (bh * bw ≤ length greatest.now) }
    ensures { result ≡ near_mark (at least.now) (at greatest.now) bw bh i }
{
    let near = Rect::about(bw, bh, i % bw, i / bw, 1);
    let low = rect_stats(least, bw, near);
    let high = rect_stats(greatest, bw, near);
    mark(low.least, high.greatest)
}

// The near mark of each of bw × bh blocks, from their least and greatest values.
#[tactic(auto, using(lists::proofs::Tabulate::filled_none, lists::proofs::Tabulate::filled_step))]
pub fn near_marks(least: &[u8], greatest: &[u8], bw: usize, bh: usize, nears: &mut [u8])
    requires { (bw ≤ 512) × (bh ≤ 512) × (bh * bw ≤ length least.now) × (bh * bw ≤ length greatest.now) × (bh * bw ≤ length nears.old) }
    ensures { nears.new ≡ filled (bh * bw) (near_mark (at least.now) (at greatest.now) bw bh) nears.old }
{
    for i in 0..bh * bw {
        nears[i] = near_mark(least, greatest, bw, bh, i);
    }
}
