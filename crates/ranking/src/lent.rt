// The thin functions over a lent slice of finders, any number of them.
ghost use Rattle.std.specs.Prelude.{◌≡◌};
ghost use Rattle.ranking.specs.Ranking.{finder_at};
ghost use Rattle.ranking.specs.Tables.{eight_of};

use super::{Eight, eight_places};
use lcr_core::finder::Finder;

// The finder at a place, and the zero finder past the end.
pub fn finder_at(fs: &[Finder], i: usize) -> Finder
    ensures { result ≡ finder_at fs.now i }
{
    fs.get(i).copied().unwrap_or(Finder::zero())
}

// The first eight, however many there are.
pub fn first_eight(fs: &[Finder]) -> Eight
    ensures { result ≡ eight_of fs.now }
{
    let mut at = [Finder::zero(); 8];
    for (i, place) in at.iter_mut().enumerate() {
        *place = finder_at(fs, i);
    }
    eight_places(fs.len(), at)
}
