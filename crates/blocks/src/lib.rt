// The values and the marks of a picture's 8 × 8 blocks.
#![tactic(auto)]

ghost use Rattle.std.specs.Prelude.{◌≡◌, ◌≤◌, length, nat_lt};
ghost use Rattle.std.specs.List.{list_any};
ghost use Rattle.lcr_core.specs.Outcome.{number_of};
ghost use Rattle.blocks.specs.Blocks.{blocks_in, blocks_refusal};
ghost use Rattle.blocks.specs.Work.{lengths, SameBlocks, HasValues};

use lcr_core::Refusal;
use marks::{edge_marks, near_marks};
use picture::{GrayPicture, LentGray, blocks_on};
use refusal::check_picture;
use stats::all_values;

mod marks;
pub mod picture;
pub mod rect;
mod refusal;
mod stats;

// The five work slices: a byte for each block in each.
#[derive(Drop)]
pub struct Blocks<'a> {
    pub means: &'a mut [u8],
    pub least: &'a mut [u8],
    pub greatest: &'a mut [u8],
    pub edges: &'a mut [u8],
    pub nears: &'a mut [u8],
}

impl Blocks<'_> {
    // How many bytes each has.
    pub fn lengths(&self) -> [usize; 5]
        ensures { result ≡ lengths self.now }
    {
        [
            self.means.len(),
            self.least.len(),
            self.greatest.len(),
            self.edges.len(),
            self.nears.len(),
        ]
    }
}

// Whether one of the work slices is too short for n blocks.
fn is_short(work: [usize; 5], n: usize) -> bool
    ensures { result ≡ list_any (λ length. nat_lt length n) work }
{
    work.iter().any(|length| *length < n)
}

// What `block_values` refuses of `len` gray bytes, with work slices of these lengths, in the order of `Blocks`.
pub fn check_blocks_lengths(
    len: usize,
    width: u32,
    height: u32,
    work: [usize; 5],
) -> Result<(), Refusal>
    ensures { number_of result ≡ blocks_refusal len width height work }
{
    check_picture(len, width, height)?;
    let n = blocks_on(height as usize) * blocks_on(width as usize);
    if is_short(work, n) {
        return Err(Refusal::ShortOutput);
    }
    Ok(())
}

// What it refuses of a picture and work slices that are lent.
pub fn check_blocks(gray: LentGray<'_>, blocks: &Blocks<'_>) -> Result<(), Refusal>
    ensures { let p = gray.entry in number_of result ≡ blocks_refusal (length p.gray.now) p.width p.height (lengths blocks.now) }
{
    check_blocks_lengths(gray.gray.len(), gray.width, gray.height, blocks.lengths())
}

// The values and marks of a picture, into work slices that have room.
#[tactic(auto, using(crate::proofs::Marking::written_edges, crate::proofs::Marking::written_nears))]
fn values_checked(picture: GrayPicture, blocks: &mut Blocks<'_>)
    requires { let n = blocks_in picture.width picture.height in let b = blocks.old in
        (n ≤ length b.means.now) × (n ≤ length b.least.now) × (n ≤ length b.greatest.now) × (n ≤ length b.edges.now) × (n ≤ length b.nears.now) }
    ensures same { SameBlocks blocks.old blocks.new }
    ensures values { let p = picture.entry in HasValues 0 p.gray.now p.width p.height blocks.old blocks.new }
{
    let bw = picture.columns();
    let bh = picture.rows();
    // Lent again one by one: a field may not be read while another is lent.
    let means = &mut *blocks.means;
    let least = &mut *blocks.least;
    let greatest = &mut *blocks.greatest;
    let edges = &mut *blocks.edges;
    let nears = &mut *blocks.nears;
    all_values(picture, means, least, greatest);
    edge_marks(least, greatest, bh * bw, edges);
    near_marks(least, greatest, bw, bh, nears);
}

// Writes each block's mean, least and greatest value, edge mark and near mark, a byte for each block in each slice, or refuses and writes nothing.
#[tactic(auto, using(crate::proofs::Refusals::passes))]
pub fn block_values(gray: LentGray<'_>, blocks: &mut Blocks<'_>) -> Result<(), Refusal>
    ensures refusal { let p = gray.entry in number_of result ≡ blocks_refusal (length p.gray.now) p.width p.height (lengths blocks.old) }
    ensures same { SameBlocks blocks.old blocks.new }
    ensures values { let p = gray.entry in HasValues (number_of result) p.gray.now p.width p.height blocks.old blocks.new }
{
    check_blocks(gray, blocks)?;
    let picture = GrayPicture {
        gray: gray.gray,
        width: gray.width as usize,
        height: gray.height as usize,
    };
    values_checked(picture, blocks);
    Ok(())
}
