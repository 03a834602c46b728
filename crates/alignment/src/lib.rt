// The alignment marker: a template match through the transform, and a search along rows where that finds none.
#![tactic(auto)]

ghost use Rattle.std.specs.Prelude.{◌≡◌};
ghost use Rattle.alignment.specs.Alignment.{match_answer, searched_of, located_of, locate_answer, rebuilt_of, refine_answer};

use binary::picture::LentBits;
use geometry::{Corners, build_transform};
use lcr_core::Refusal;
use lcr_core::point::Point;
use lcr_core::version::Version;
use row_search::find_alignment;
use template::View;
use transform::Transform;

mod matching;
mod template;

// The marker that refining found, if any, and the transform through it; the one given where there is no marker or no such transform.
#[derive(Clone, Copy)]
pub struct Refined {
    pub transform: Transform,
    pub marker: Option<Point>,
}

// The marker by its 5 × 5 modules, through the transform, or none.
#[tactic(auto, using(lcr_core::proofs::Answers::refused_by, lcr_core::proofs::Answers::checked_passed), unfolding(crate::specs::Alignment::alignment_refusal, crate::specs::Alignment::match_answer))]
pub fn match_alignment(
    bits: LentBits<'_>,
    t: Transform,
    version: Version,
) -> Result<Option<Point>, Refusal>
    ensures { let p = bits.entry in result ≡ match_answer p.bits.now p.width p.height t version.0 }
{
    let view = View::new(bits, version, t)?;
    Ok(view.matched())
}

impl<'a> View<'a> {
    // The marker by runs along rows, about the place where the transform puts its centre. A view's picture is not refused.
    #[tactic(auto, unfolding(crate::specs::Alignment::searched_of, row_search::specs::Rows::find_answer))]
    fn searched(&self, module: f32) -> Option<Point>
        ensures { let s = self.now in result ≡ searched_of s.picture.bits.now s.picture.width s.picture.height s.transform s.version.0 «module» }
    {
        let c = self.centre();
        let predicted = self.transform.apply(c, c);
        find_alignment(LentBits::from(self.picture), predicted, module).unwrap_or(None)
    }

    // The marker by its modules, or else by runs along rows.
    #[tactic(auto, unfolding(crate::specs::Alignment::located_of))]
    fn located(&self, module: f32) -> Option<Point>
        ensures { let s = self.now in result ≡ located_of s.picture.bits.now s.picture.width s.picture.height s.transform s.version.0 «module» }
    {
        if self.version.0 < 2 {
            return None;
        }
        // Not by `or_else`: its closure would need clauses of its own, longer than the two arms.
        match self.matched() {
            Some(p) => Some(p),
            None => self.searched(module),
        }
    }
}

// The marker by its modules, or else by runs along rows; refused where the picture or the version is.
#[tactic(auto, using(lcr_core::proofs::Answers::refused_by, lcr_core::proofs::Answers::checked_passed), unfolding(crate::specs::Alignment::alignment_refusal, crate::specs::Alignment::locate_answer))]
pub fn locate_alignment(
    bits: LentBits<'_>,
    t: Transform,
    version: Version,
    module: f32,
) -> Result<Option<Point>, Refusal>
    ensures { let p = bits.entry in result ≡ locate_answer p.bits.now p.width p.height t version.0 «module» }
{
    let view = View::new(bits, version, t)?;
    Ok(view.located(module))
}

// The transform through the finders and the marker; the one given where there is no marker or no such transform.
#[tactic(auto, using(crate::proofs::Refining::rebuilt_found, crate::proofs::Refining::rebuilt_missing), unfolding(crate::specs::Alignment::rebuilt_of))]
fn rebuilt(
    corners: Corners,
    marker: Option<Point>,
    version: Version,
    transform: Transform,
) -> Transform
    ensures { result ≡ rebuilt_of corners marker version.0 transform }
{
    if marker.is_some() {
        let built = build_transform(corners, marker, version);
        built.unwrap_or(None).unwrap_or(transform)
    } else {
        transform
    }
}

// The marker located once more, through the given transform, and the transform rebuilt through it.
#[tactic(auto, using(lcr_core::proofs::Answers::refused_by, lcr_core::proofs::Answers::checked_passed), unfolding(crate::specs::Alignment::alignment_refusal, crate::specs::Alignment::refine_answer, crate::specs::Alignment::refined_of))]
pub fn refine_alignment(
    bits: LentBits<'_>,
    corners: Corners,
    version: Version,
    transform: Transform,
    module: f32,
) -> Result<Refined, Refusal>
    ensures { let p = bits.entry in result ≡ refine_answer p.bits.now p.width p.height corners version.0 transform «module» }
{
    let view = View::new(bits, version, transform)?;
    let marker = view.located(module);
    let transform = rebuilt(corners, marker, version, transform);
    Ok(Refined { transform, marker })
}
