// Finders: the three squares by which a plate is found.
ghost use Rattle.std.specs.Prelude.{◌≡◌};
ghost use Rattle.lcr_core.specs.Finder.{zero_finder, centre_of};

use super::point::Point;

// A finder's centre in pixels, its module in pixels, and how many hits it is the mean of.
#[derive(Clone, Copy)]
pub struct Finder {
    pub x: f32,
    pub y: f32,
    pub module: f32,
    pub confirmations: u32,
}

impl Finder {
    // What stands at places beyond a count.
    pub fn zero() -> Finder
        ensures { result ≡ zero_finder }
    {
        Finder {
            x: 0.0,
            y: 0.0,
            module: 0.0,
            confirmations: 0,
        }
    }

    pub fn centre(self) -> Point
        ensures { result ≡ centre_of self }
    {
        Point {
            x: self.x,
            y: self.y,
        }
    }
}
