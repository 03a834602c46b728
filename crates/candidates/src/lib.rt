// The detections of a picture: of the ranked triples of its finders, those that can be built.
#![tactic(auto)]

ghost use Rattle.std.specs.Prelude.{◌≡◌, List, [], ◌∷◌, ◌++◌, ◌<◌, ◌≤◌, length, take};
ghost use Rattle.ranking.specs.Tables.{in_use, eight_of};
ghost use Rattle.finders.specs.Answer.{finders_table};
ghost use Rattle.candidates.specs.Detection.{build_with, build_of, zero_detection};
ghost use Rattle.candidates.specs.Passing.{Within};
ghost use Rattle.candidates.specs.Candidates.{corners_of, detections_of, detections_table, from_answer, detect_answer, detect_first};

use alignment::Refined;
use binary::picture::LentBits;
use finders::Finders;
use geometry::Corners;
use lcr_core::Refusal;
use lcr_core::finder::Finder;
use lcr_core::point::Point;
use lcr_core::version::Version;
use ranking::{Eight, Triple};
use transform::Transform;

// A detected symbol: its finders, the centre of its alignment marker where one was found, its version, the transform from modules to pixels, the score of its
// triple and the mean module of its finders.
#[derive(Clone, Copy)]
pub struct Detection {
    pub finders: Corners,
    pub marker: Option<Point>,
    pub version: Version,
    pub transform: Transform,
    pub score: f32,
    pub mean: f32,
}

// At most three detections; places from count on are zero. An array and a count, since there is no heap.
#[derive(Clone, Copy)]
pub struct Detections {
    pub count: usize,
    pub at: [Detection; 3],
}

fn zero_detection() -> Detection
    ensures { result ≡ zero_detection }
{
    let z = Finder::zero();
    let t = Transform::zero();
    Detection {
        finders: Corners {
            tl: z,
            tr: z,
            bl: z,
        },
        marker: None,
        version: Version(0),
        transform: t,
        score: 0.0,
        mean: 0.0,
    }
}

// The detection of three ordered finders with a triple's score for a version, or none.
fn build_with(bits: LentBits<'_>, c: Corners, score: f32, v: Version) -> Option<Detection>
    ensures { let p = bits.entry in result ≡ build_with p.bits.now p.width p.height c score v.0 }
{
    let mean = geometry::score::mean_module(c.tl, c.tr, c.bl);
    // Predict the marker by the finders alone, then look for it there.
    let rough_build = geometry::build_transform(c, None, v);
    let rough = rough_build.unwrap_or(None)?;
    let located = alignment::locate_alignment(bits, rough, v, mean);
    let marker = located.unwrap_or(None);
    let build = geometry::build_transform(c, marker, v);
    let transform = build.unwrap_or(None)?;
    let unrefined = Refined {
        transform: Transform::zero(),
        marker: None,
    };
    let refinement = alignment::refine_alignment(bits, c, v, transform, mean);
    let refined = refinement.unwrap_or(unrefined);
    Some(Detection {
        finders: c,
        marker: refined.marker,
        version: v,
        transform: refined.transform,
        score,
        mean,
    })
}

// The detection of three ordered finders with a triple's score, or none.
#[tactic(auto, using(crate::proofs::Building::of_version, crate::proofs::Building::of_none))]
fn build_detection(bits: LentBits<'_>, c: Corners, score: f32) -> Option<Detection>
    ensures { let p = bits.entry in result ≡ build_of p.bits.now p.width p.height c score }
{
    let v = geometry::estimate_version(c)?;
    build_with(bits, c, score, v)
}

// The empty table.
pub fn no_detections() -> Detections
    ensures { result ≡ detections_table [] }
{
    let z = zero_detection();
    Detections {
        count: 0,
        at: [z; 3],
    }
}

impl Detections {
    // The detections, all places at most.
    pub fn as_slice(&self) -> &[Detection]
        ensures value { result.now ≡ take self.now.count self.now.at }
        ensures most { length result.now ≤ 3 }
    {
        &self.at[..self.count.min(3)]
    }

    // One more detection.
    fn push(&mut self, d: Detection)
        requires { self.old.count < 3 }
        ensures { (ds : List Detection) → self.old ≡ detections_table ds → self.new ≡ detections_table (ds ++ d ∷ []) }
    {
        self.at[self.count] = d;
        self.count += 1;
    }
}

// The finders at a triple's places, ordered.
fn corners_at(fs: &[Finder], s: Triple) -> Corners
    requires { Within fs.now s }
    ensures { result ≡ corners_of fs.now s }
{
    geometry::order_finders(fs[s.i], fs[s.j], fs[s.k])
}

// The detections of the ranked triples, in rank order; those that can't be built are left out. Not inlined, so that its locals add nothing to the stack below
// the search.
#[inline(never)]
fn built_triples(bits: LentBits<'_>, t: Eight) -> Detections
    ensures { let p = bits.entry in result ≡ detections_table (detections_of p.bits.now p.width p.height (in_use t)) }
{
    let fs = t.as_slice();
    let ranked = ranking::ranking(t);
    let mut found = no_detections();
    for s in ranked.as_slice() {
        let c = corners_at(fs, *s);
        if let Some(d) = build_detection(bits, c, s.score) {
            found.push(d);
        }
    }
    found
}

// The detections of a table's finders in a lent picture: refusals 1, 2, 4.
#[tactic(auto, using(lcr_core::proofs::Answers::refused_by, lcr_core::proofs::Answers::checked_passed), unfolding(crate::specs::Candidates::from_answer, binary::specs::Refusal::bits_refusal))]
pub fn candidates_in(bits: LentBits<'_>, t: Eight) -> Result<Detections, Refusal>
    ensures { let p = bits.entry in result ≡ from_answer p.bits.now p.width p.height (in_use t) }
{
    bits.checked()?;
    Ok(built_triples(bits, t))
}

// The first eight finders of a search.
#[tactic(auto, using(crate::proofs::Tables::first_eight_is))]
pub fn eight_in(t: Finders) -> Eight
    ensures { (fs : List Finder) → t ≡ finders_table fs → result ≡ eight_of fs }
{
    ranking::eight_places(t.count, ranking::lent::first_eight(&t.table).at)
}

// The detections of a picture: refusals 1, 2, 4, and 6 where it has too many finders.
#[tactic(auto, using(crate::proofs::Answers::searched, crate::proofs::Answers::search_refused, crate::proofs::Answers::search_refused_with))]
pub fn detect_candidates(bits: LentBits<'_>) -> Result<Detections, Refusal>
    ensures { let p = bits.entry in result ≡ detect_answer p.bits.now p.width p.height }
{
    let found = finders::find_finders(bits)?;
    Ok(built_triples(bits, eight_in(found)))
}

// The first detection of a picture, if there is one.
#[tactic(auto, using(crate::proofs::Answers::first_found, crate::proofs::Answers::first_refused))]
pub fn detect(bits: LentBits<'_>) -> Result<Option<Detection>, Refusal>
    ensures { let p = bits.entry in result ≡ detect_first p.bits.now p.width p.height }
{
    let found = detect_candidates(bits)?;
    Ok(found.as_slice().first().copied())
}

// The detections of a lent list's finders, however many there are: refusals 1, 2, 4.
pub fn candidates_from(bits: LentBits<'_>, fs: &[Finder]) -> Result<Detections, Refusal>
    ensures { let p = bits.entry in result ≡ from_answer p.bits.now p.width p.height fs.now }
{
    candidates_in(bits, ranking::lent::first_eight(fs))
}
