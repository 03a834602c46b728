// The template match: the site at which most of the marker's 25 modules have their colour.
ghost use Rattle.std.specs.Prelude.{◌≡◌, ◌+◌, ◌*◌, ◌≤◌, ◌<◌, length, IfOk};
ghost use Rattle.lcr_core.specs.Outcome.{number_of};
ghost use Rattle.float.specs.Steps.{◌⊕◌};
ghost use Rattle.transform.specs.Apply.{applied};
ghost use Rattle.alignment.specs.Template.{outside_of, pixel_at, tapped, module_dark, want_dark, signed32, agree, template_score, site_at, better_of, sweep_best};
ghost use Rattle.alignment.specs.Alignment.{alignment_refusal};
ghost use Rattle.alignment.specs.Counting.{Counted, UpTo, least_of};
ghost use Rattle.alignment.specs.Known.{KnownAt, Known, raised_of};

use binary::picture::{BitPicture, LentBits};
use float::to_u32;
use lcr_core::Refusal;
use lcr_core::point::Point;
use lcr_core::version::Version;
use transform::Transform;

// How many taps of a module lie in the picture, and how many of these are dark.
#[derive(Clone, Copy)]
pub struct Votes {
    pub seen: u8,
    pub dark: u8,
}

// A site: how many modules agree there, its squared offset from the predicted centre, and its offset in modules.
#[derive(Clone, Copy)]
pub struct Site {
    pub score: u8,
    pub offset2: f32,
    pub x: f32,
    pub y: f32,
}

impl Site {
    // The least score by which a site with such a squared offset beats this one.
    #[tactic(auto, unfolding(crate::specs::Counting::least_of))]
    fn needed(self, offset2: f32) -> u16
        ensures { result ≡ least_of self offset2 }
    {
        if offset2 < self.offset2 {
            self.score as u16
        } else {
            self.score as u16 + 1
        }
    }

    // The same place, with a score that only a site with 23 beats: no other site of the last sweep counts.
    #[tactic(auto, unfolding(crate::specs::Known::raised_of))]
    pub fn raised(self) -> Site
        ensures { result ≡ raised_of self }
    {
        if self.score < 22 {
            return Site {
                score: 22,
                offset2: 0.0,
                ..self
            };
        }
        self
    }
}

// Whether a coordinate is outside 0 .. n. A NaN is not.
#[tactic(auto, unfolding(crate::specs::Template::outside_of))]
fn outside(x: f32, n: u16) -> bool
    ensures { result ≡ outside_of n x }
{
    (x < 0.0) | (x >= n as f32)
}

// k - n
#[tactic(auto, using(float::proofs::Signs::neg_int), unfolding(crate::specs::Template::signed32))]
fn signed32(k: u8, n: u8) -> f32
    ensures { result ≡ signed32 k n }
{
    if n <= k {
        (k - n) as f32
    } else {
        -((n - k) as f32)
    }
}

// Whether the module in column i and row j of the marker is dark: all but the ring about the middle one.
#[tactic(auto, unfolding(crate::specs::Template::want_dark))]
fn wants_dark(i: u8, j: u8) -> bool
    ensures { result ≡ want_dark i j }
{
    i.abs_diff(2).max(j.abs_diff(2)) != 1
}

// A picture that is not refused, the version of the symbol in it, and the map from its modules to pixels.
#[derive(Clone, Copy)]
pub struct View<'a> {
    pub picture: BitPicture<'a>,
    pub version: Version,
    pub transform: Transform,
    pub ghost passes: { alignment_refusal (length picture.bits.now) picture.width picture.height version.0 ≡ 0 },
}

impl<'a> View<'a> {
    // The view of a picture, or refusal 1, 2, 4 or 7, in this order.
    pub fn new(
        bits: LentBits<'a>,
        version: Version,
        transform: Transform,
    ) -> Result<View<'a>, Refusal>
        ensures number { let p = bits.entry in number_of result ≡ alignment_refusal (length p.bits.now) p.width p.height version.0 }
        ensures view { let p = bits.entry in IfOk result (λ v. (v.picture.bits.now ≡ p.bits.now) × (v.picture.width ≡ p.width) × (v.picture.height ≡ p.height) × (v.version ≡ version) × (v.transform ≡ transform)) }
    {
        let picture = bits.checked()?;
        Version::new(version.0)?;
        Ok(View {
            picture,
            version,
            transform,
        })
    }

    // The pixel at p, 1 for dark.
    #[tactic(auto, using(crate::proofs::Taps::bit_from), unfolding(crate::specs::Template::pixel_at))]
    fn pixel_at(&self, p: Point) -> u8
        ensures value { let s = self.now in result ≡ pixel_at s.picture.bits.now s.picture.width s.picture.height p }
        ensures upper_bound { result ≤ 1 }
    {
        u8::from(self.picture.dark(to_u32(p.x), to_u32(p.y)))
    }

    // One tap more, at p.
    #[tactic(auto, unfolding(crate::specs::Template::tapped))]
    fn tap(&self, p: Point, v: Votes) -> Votes
        requires { (v.seen ≤ 4) × (v.dark ≤ v.seen) }
        ensures value { let s = self.now in result ≡ tapped s.picture.bits.now s.picture.width s.picture.height v p }
        ensures counted { Counted v result }
    {
        if outside(p.x, self.picture.width) {
            return v;
        }
        if outside(p.y, self.picture.height) {
            return v;
        }
        Votes {
            seen: v.seen + 1,
            dark: v.dark + self.pixel_at(p),
        }
    }

    // Whether most of the five taps that lie in the picture are dark, at the places that `place` gives. Where the first three agree, they decide.
    fn majority<F: Fn(f32, f32) -> Point>(&self, place: F, x: f32, y: f32) -> bool
        requires callable { F.IsAlwaysCallable place }
        requires places { (u v : _) (p : _) → F.post place u v p → p ≡ applied self.now.transform u v }
        ensures { let s = self.now in result ≡ module_dark s.picture.bits.now s.picture.width s.picture.height s.transform x y }
    {
        let none = Votes { seen: 0, dark: 0 };
        let a = self.tap(place(x + 0.0, y + 0.0), none);
        let b = self.tap(place(x + -0.25, y + 0.0), a);
        let c = self.tap(place(x + 0.25, y + 0.0), b);
        if c.dark == 3 {
            return true;
        }
        if c.seen == c.dark + 3 {
            return false;
        }
        let d = self.tap(place(x + 0.0, y + -0.25), c);
        let e = self.tap(place(x + 0.0, y + 0.25), d);
        e.dark * 2 > e.seen
    }

    // Whether the module at (x, y) is dark. Without a lens, as in every detection, the places are found by the faster way.
    pub fn is_dark(&self, x: f32, y: f32) -> bool
        ensures { let s = self.now in result ≡ module_dark s.picture.bits.now s.picture.width s.picture.height s.transform x y }
    {
        if self.transform.strength == 0.0 {
            return self.majority(|u, v| self.transform.place(u, v), x, y);
        }
        self.majority(|u, v| self.transform.apply(u, v), x, y)
    }

    // The better of the best site so far and the site at offset (x, y) from the centre (c, c).
    fn better_site(&self, c: f32, x: f32, y: f32, best: Site, colours: &[u8], at: u16) -> Site
        requires { let s = self.now in KnownAt s.picture.bits.now s.picture.width s.picture.height s.transform (c ⊕ x) (c ⊕ y) colours.now at }
        ensures { let s = self.now in result ≡ better_of best (site_at s.picture.bits.now s.picture.width s.picture.height s.transform c x y) }
    {
        let modules = Modules {
            view: *self,
            x: c + x,
            y: c + y,
            colours,
            at,
        };
        let offset2 = x * x + y * y;
        let least = best.needed(offset2);
        let score = modules.score(least);
        if (score as u16) < least {
            return best;
        }
        Site {
            score,
            offset2,
            x,
            y,
        }
    }

    // m × m sites, `step` apart, about the best so far, with a table of their modules' colours or an empty one.
    #[tactic(auto, using(lists::proofs::Folds::fold_more, lists::proofs::Folds::fold_end), unfolding(crate::specs::Template::sweep_best))]
    pub fn sweep(&self, c: f32, m: u8, step: f32, best: Site, colours: &[u8]) -> Site
        requires { let s = self.now in (0 < m) × (m ≤ 13) × Known s.picture.bits.now s.picture.width s.picture.height s.transform c m step best colours.now }
        ensures { let s = self.now in result ≡ sweep_best s.picture.bits.now s.picture.width s.picture.height s.transform c m step best }
    {
        let mut so_far = best;
        for k in 0..m * m {
            let dx = signed32(k % m, m / 2) * step;
            let dy = signed32(k / m, m / 2) * step;
            let at = (k % m) as u16 + 21 * (k / m) as u16;
            so_far = self.better_site(c, best.x + dx, best.y + dy, so_far, colours, at);
        }
        so_far
    }
}

// The 25 modules of a marker centred at (x, y). A table that is not empty has their colours from `at` on.
#[derive(Clone, Copy)]
struct Modules<'a, 'b> {
    view: View<'a>,
    x: f32,
    y: f32,
    colours: &'b [u8],
    at: u16,
    ghost known: { KnownAt view.picture.bits.now view.picture.width view.picture.height view.transform x y colours.now at },
}

impl<'a, 'b> Modules<'a, 'b> {
    // Whether the module in column i and row j is dark.
    #[tactic(auto, using(binary::proofs::Bits::bit_one))]
    fn sees_dark(&self, i: u8, j: u8) -> bool
        requires { (i < 5) × (j < 5) }
        ensures { let s = self.now in let v = s.view in result ≡ module_dark v.picture.bits.now v.picture.width v.picture.height v.transform (s.x ⊕ signed32 i 2) (s.y ⊕ signed32 j 2) }
    {
        if self.colours.is_empty() {
            let x = self.x + signed32(i, 2);
            let y = self.y + signed32(j, 2);
            return self.view.is_dark(x, y);
        }
        self.colours[self.at as usize + 2 * i as usize + 42 * j as usize] == 1
    }

    // 1 where module k has its colour.
    #[tactic(auto, using(crate::proofs::Taps::bit_from), unfolding(crate::specs::Template::agree))]
    fn agrees(&self, k: u8) -> u8
        requires { k < 25 }
        ensures value { let s = self.now in let v = s.view in result ≡ agree v.picture.bits.now v.picture.width v.picture.height v.transform s.x s.y k }
        ensures upper_bound { result ≤ 1 }
    {
        let i = k % 5;
        let j = k / 5;
        u8::from(self.sees_dark(i, j) == wants_dark(i, j))
    }

    // How many of them have their colour. It stops where `least` is out of reach.
    #[tactic(auto, using(lists::proofs::Folds::sum_more), unfolding(lists::specs::Lists::sum_to, crate::specs::Template::template_score))]
    fn score(&self, least: u16) -> u8
        ensures { let s = self.now in let v = s.view in UpTo least (template_score v.picture.bits.now v.picture.width v.picture.height v.transform s.x s.y) result }
    {
        let mut n: u8 = 0;
        for k in 0..25 {
            if ((n + (25 - k)) as u16) < least {
                return n;
            }
            n += self.agrees(k);
        }
        n
    }
}
