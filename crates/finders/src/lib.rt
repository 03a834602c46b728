// The finder search: runs of 1:1:3:1:1 in a bit picture, along rows and columns, confirmed on both axes and merged.
#![tactic(auto)]

ghost use Rattle.std.specs.Prelude.{◌≡◌, ◌≤◌, [], length};
ghost use Rattle.finders.specs.Search.{max_finders};
ghost use Rattle.finders.specs.Answer.{finders_table, held_in, answer_of};

use binary::picture::LentBits;
use lcr_core::Refusal;
use lcr_core::finder::Finder;
use search::scan_axis;

mod held;
mod rank;
mod search;

// The places of the table.
pub const MAX_FINDERS: usize = 1000;

// So many finders; the places beyond the count are zero. A count beside an array: document 01 fixes this form, and there is no heap.
#[derive(Clone, Copy)]
pub struct Finders {
    pub count: usize,
    pub table: [Finder; MAX_FINDERS],
}

impl Finders {
    // The finders, all places at most.
    pub fn as_slice(&self) -> &[Finder]
        ensures value { result.now ≡ held_in self.now }
        ensures most { length result.now ≤ max_finders }
    {
        &self.table[..self.count.min(MAX_FINDERS)]
    }
}

pub fn no_finders() -> Finders
    ensures { result ≡ finders_table [] }
{
    let zero = Finder::zero();
    Finders {
        count: 0,
        table: [zero; MAX_FINDERS],
    }
}

// The finders of a picture, those with most confirmations first, or a refusal: 1, 2, 4 or 6. In one function, since a step between that answered with the
// table would hold it once more.
#[tactic(auto, using(crate::proofs::Outcomes::search_steps, binary::proofs::Pass::bits_pass))]
pub fn find_finders(bits: LentBits<'_>) -> Result<Finders, Refusal>
    ensures { let p = bits.entry in result ≡ answer_of p.bits.now p.width p.height }
{
    let picture = bits.checked()?;
    let mut held = no_finders();
    scan_axis(picture, false, &mut held)?;
    scan_axis(picture, true, &mut held)?;
    held.rank_held();
    Ok(held)
}

#[cfg(test)]
mod tests {
    use super::*;
    use lcr_core::point::Point;

    // So many hits at x, 8, of module 4.
    fn hits(t: &mut Finders, x: f32, n: u32) -> Result<(), Refusal> {
        for _ in 0..n {
            t.merge(Point { x, y: 8.0 }, 4.0)?;
        }
        Ok(())
    }

    #[test]
    fn merges_and_ranks(rt: HostRuntime) {
        let mut t = no_finders();
        assert!(rt; hits(&mut t, 10.0, 2).is_ok());
        assert!(rt; hits(&mut t, 50.0, 3).is_ok());
        assert!(rt; hits(&mut t, 90.0, 1).is_ok());
        assert_eq!(rt; t.count, 3);
        t.rank();
        assert_eq!(rt; t.count, 2);
        assert_eq!(rt; (t.table[0].x, t.table[0].confirmations), (50.0, 3));
        assert_eq!(rt; (t.table[1].x, t.table[1].confirmations), (10.0, 2));
        assert_eq!(rt; (t.table[2].x, t.table[2].confirmations), (0.0, 0));
    }

    // Tables that no search leaves.
    #[test]
    fn takes_any_table(rt: HostRuntime) {
        let mut t = no_finders();
        t.count = 5000;
        t.table[999].confirmations = 7;
        assert!(rt; hits(&mut t, 90.0, 1).is_err());
        assert_eq!(rt; t.count, 5000);
        t.rank();
        assert_eq!(rt;
            (
                t.count,
                t.table[0].confirmations,
                t.table[999].confirmations
            ),
            (1, 7, 0)
        );
        t.table[0].confirmations = u32::MAX;
        assert!(rt; hits(&mut t, 90.0, 1).is_err());
        assert_eq!(rt; (t.count, t.table[0].confirmations), (1, u32::MAX));
    }
}
