// Rectangles of a grid's columns and rows.
ghost use Rattle.std.specs.Prelude.{◌≤◌, ◌<◌};

// The columns from `left` on below `right` in the rows from `top` on below `bottom`.
#[derive(Clone, Copy)]
pub struct Rect {
    pub left: usize,
    pub right: usize,
    pub top: usize,
    pub bottom: usize,
    pub ghost wide: { left ≤ right },
    pub ghost high: { top ≤ bottom },
}

impl Rect {
    ghost use Rattle.blocks.specs.Rects.{IsAbout};

    // The window of a radius about column x and row y of a grid, cut at its edges; about a place outside, what of it lies in the grid.
    pub fn about(width: usize, height: usize, x: usize, y: usize, radius: usize) -> Self
        ensures { (x < width) × (y < height) → IsAbout width height x y radius result }
    {
        Rect {
            left: width.min(x.saturating_sub(radius)),
            right: width.min(x.saturating_add(radius).saturating_add(1)),
            top: height.min(y.saturating_sub(radius)),
            bottom: height.min(y.saturating_add(radius).saturating_add(1)),
        }
    }
}
