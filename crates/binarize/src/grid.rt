// The grid of a picture's blocks.
ghost use Rattle.std.specs.Prelude.{◌*◌, ◌≤◌, length};

// The mean, the edge mark and the near mark of each of width × height blocks, row by row.
#[derive(Clone, Copy)]
pub struct Grid<'a> {
    pub means: &'a [u8],
    pub edges: &'a [u8],
    pub nears: &'a [u8],
    pub width: usize,
    pub height: usize,
    pub ghost wide: { width ≤ 512 },
    pub ghost high: { height ≤ 512 },
    pub ghost all_means: { height * width ≤ length means.now },
    pub ghost all_edges: { height * width ≤ length edges.now },
    pub ghost all_nears: { height * width ≤ length nears.now },
}
