// The three sweeps, and the marker at the best site.
ghost use Rattle.std.specs.Prelude.{◌≡◌, ◌≤◌, ◌<◌, length};
ghost use Rattle.lists.specs.Lists.{tabulate};
ghost use Rattle.float.specs.Constants.{f1/2};
ghost use Rattle.alignment.specs.Template.{no_site, sweep_best, best_of, marker_centre, matched_of};
ghost use Rattle.alignment.specs.Known.{half_at, colour_at, SameFrom};

use super::template::{Site, View};
use lcr_core::point::Point;

// n / 2
fn half_of(n: u16) -> f32
    ensures { result ≡ half_at n }
{
    n as f32 * 0.5
}

impl<'a> View<'a> {
    // The marker's centre in modules, which is its x and its y.
    #[tactic(auto, unfolding(crate::specs::Template::marker_centre))]
    pub fn centre(&self) -> f32
        ensures { result ≡ marker_centre self.now.version.0 }
    {
        self.version.side() as f32 - 6.5
    }

    // The colour of module k of 21 × 21, half a module apart, from n / 2 on: 1 for dark.
    #[tactic(auto, using(crate::proofs::Taps::bit_from), unfolding(crate::specs::Known::colour_at))]
    fn colour(&self, n: u16, k: u16) -> u8
        requires { (n ≤ 4096) × (k < 441) }
        ensures { let s = self.now in result ≡ colour_at s.picture.bits.now s.picture.width s.picture.height s.transform n k }
    {
        u8::from(self.is_dark(half_of(n + k % 21), half_of(n + k / 21)))
    }

    // The colours of all 441.
    #[tactic(auto, using(lists::proofs::Tabulate::filled_none, lists::proofs::Tabulate::filled_step))]
    fn fill_colours(&self, n: u16, colours: &mut [u8])
        requires { (n ≤ 4096) × (length colours.old ≡ 441) }
        ensures { let s = self.now in colours.new ≡ tabulate 441 (colour_at s.picture.bits.now s.picture.width s.picture.height s.transform n) }
    {
        for (k, place) in colours.iter_mut().enumerate() {
            *place = self.colour(n, k as u16);
        }
    }

    // The first sweep. Its 169 sites have 25 modules each, but only 441 different ones.
    fn first_sweep(&self) -> Site
        ensures { let s = self.now in result ≡ sweep_best s.picture.bits.now s.picture.width s.picture.height s.transform (marker_centre s.version.0) 13 f1/2 no_site }
    {
        let mut colours = [0u8; 441];
        // The sweep reaches 3 modules before the centre, at side - 6.5, and a marker 2 more: to side - 11.5.
        self.fill_colours(2 * self.version.side() - 23, &mut colours);
        let none = Site {
            score: 0,
            offset2: 1.0 / 0.0,
            x: 0.0,
            y: 0.0,
        };
        self.sweep(self.centre(), 13, 0.5, none, &colours)
    }

    // The best site of the three sweeps; where that has fewer than 23 modules, perhaps another that has fewer than 23.
    #[tactic(auto, using(crate::proofs::Colours::known_nothing, crate::proofs::Raised::best_by))]
    fn best_site(&self) -> Site
        ensures { let s = self.now in SameFrom 23 result (best_of s.picture.bits.now s.picture.width s.picture.height s.transform (marker_centre s.version.0)) }
    {
        let c = self.centre();
        let none = &self.picture.bits[..0];
        let a = self.first_sweep();
        let b = self.sweep(c, 9, 0.125, a, none);
        self.sweep(c, 9, 0.03125, b.raised(), none)
    }

    // The marker at the best site, where 23 modules agree.
    #[tactic(auto, using(crate::proofs::Raised::same_less, crate::proofs::Raised::same_reached), unfolding(crate::specs::Template::matched_of))]
    pub fn matched(&self) -> Option<Point>
        ensures { let s = self.now in result ≡ matched_of s.picture.bits.now s.picture.width s.picture.height s.transform s.version.0 }
    {
        if self.version.0 < 2 {
            return None;
        }
        let c = self.centre();
        let s = self.best_site();
        if s.score < 23 {
            return None;
        }
        Some(self.transform.apply(c + s.x, c + s.y))
    }
}
