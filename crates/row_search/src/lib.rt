// The search for the alignment marker along rows: light, dark and light runs of a module each, confirmed down their column.
#![tactic(auto)]

ghost use Rattle.std.specs.Prelude.{◌≡◌};
ghost use Rattle.row_search.specs.Rows.{find_answer};

use binary::picture::LentBits;
use lcr_core::Refusal;
use lcr_core::point::Point;
use search::Search;
use window::window_about;

mod search;
mod window;

// The marker by runs along rows, nearest to the predicted place, or none.
#[tactic(auto, using(lcr_core::proofs::Answers::refused_by, lcr_core::proofs::Answers::checked_passed, binary::proofs::Pass::bits_pass), unfolding(crate::specs::Rows::find_answer, binary::specs::Refusal::bits_refusal))]
pub fn find_alignment(
    bits: LentBits<'_>,
    predicted: Point,
    module: f32,
) -> Result<Option<Point>, Refusal>
    ensures { let p = bits.entry in result ≡ find_answer p.bits.now p.width p.height predicted «module» }
{
    let picture = bits.checked()?;
    let search = Search {
        picture,
        window: window_about(predicted, module, picture.width, picture.height),
        predicted,
        module,
    };
    Ok(search.nearest_marker())
}
