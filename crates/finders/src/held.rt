// The table of finders found so far.
ghost use Rattle.std.specs.Prelude.{◌≡◌, ◌+◌, ◌-◌, ◌^◌, ◌<◌, ◌≤◌, Err, position};
ghost use Rattle.std.specs.Result.{IfErr};
ghost use Rattle.lcr_core.specs.declared.Refusal.TheVariants.{FullTable};
ghost use Rattle.finders.specs.Held.{within, join, merge};
ghost use Rattle.finders.specs.Search.{max_finders};
ghost use Rattle.finders.specs.Answer.{finders_table, held_in};
ghost use Rattle.finders.specs.Inner.{EndsWith, Bounded, Good, is_countable};

use crate::{Finders, MAX_FINDERS, no_finders};
use float::Float;
use lcr_core::Refusal;
use lcr_core::finder::Finder;
use lcr_core::point::Point;

// Whether the finder's own module bounds both coordinate distances. A distance is bounded by m where it lies between -m and m; of many finders most are far away,
// so that the second distance is seldom looked at.
#[tactic(auto, using(float::proofs::Within::within_both))]
fn is_within(f: Finder, p: Point) -> bool
    ensures { result ≡ within p.x p.y f }
{
    let m = f.module;
    let dx = f.x - p.x;
    let dy = f.y - p.y;
    dx <= m && -m <= dx && dy <= m && -m <= dy
}

// The running means with one hit more.
#[tactic(auto, unfolding(crate::specs::Held::join))]
fn joined(f: Finder, p: Point, module: f32) -> Finder
    requires { f.confirmations + 1 < 2 ^ 32 }
    ensures { result ≡ join p.x p.y «module» f }
{
    let n = std::num::nearest_u32_to_f32(f.confirmations);
    let next = n + 1.0;
    Finder {
        x: (f.x * n + p.x) / next,
        y: (f.y * n + p.y) / next,
        module: (f.module * n + module) / next,
        confirmations: f.confirmations + 1,
    }
}

impl Finders {
    // The first held finder that the place is within.
    fn first_within(&self, p: Point) -> Option<usize>
        ensures { result ≡ position (within p.x p.y) (held_in self.now) }
    {
        self.as_slice().iter().position(|f| is_within(*f, p))
    }

    // One more confirmed hit in the table of a search, or refusal 6, and then the table is as it was.
    pub(crate) fn merge_held(&mut self, p: Point, module: f32) -> Result<(), Refusal>
        requires { Good self.old (2 ^ 32 - 2) }
        ensures kept { IfErr result (λ _. self.new ≡ self.old) }
        ensures ends { EndsWith (merge max_finders (held_in self.old) (record { x = p.x; y = p.y; «module» = «module» })) result self.new }
    {
        if let Some(i) = self.first_within(p) {
            self.table[i] = joined(self.table[i], p, module);
            return Ok(());
        }
        if self.count < MAX_FINDERS {
            self.table[self.count] = Finder {
                x: p.x,
                y: p.y,
                module,
                confirmations: 1,
            };
            self.count += 1;
            return Ok(());
        }
        Err(Refusal::FullTable)
    }

    // The same finders in a table as a search has it: no count over the places, zero beyond it.
    pub(crate) fn settled(&self) -> Finders
        ensures value { result ≡ finders_table (held_in self.now) }
        ensures few { result.count ≤ max_finders }
    {
        let held = self.as_slice();
        let mut t = no_finders();
        for i in 0..held.len() {
            t.table[i] = held[i];
            t.count = i + 1;
        }
        t
    }

    // Whether each finder can be confirmed once more.
    fn is_countable(&self) -> bool
        ensures { result ≡ is_countable (held_in self.now) }
    {
        self.as_slice().iter().all(|f| f.confirmations < u32::MAX)
    }

    // One more confirmed hit in any table. Refusal 6 where a place is missing for it, or a finder can't be confirmed once more; then the table is as it was.
    pub fn merge(&mut self, p: Point, module: f32) -> Result<(), Refusal>
        ensures kept { IfErr result (λ _. self.new ≡ self.old) }
        ensures ends { Bounded (held_in self.old) (2 ^ 32 - 2) → EndsWith (merge max_finders (held_in self.old) (record { x = p.x; y = p.y; «module» = «module» })) result self.new }
        ensures counts { (Bounded (held_in self.old) (2 ^ 32 - 2) → ⊥) → result ≡ Err FullTable }
    {
        if !self.is_countable() {
            return Err(Refusal::FullTable);
        }
        let mut t = self.settled();
        t.merge_held(p, module)?;
        *self = t;
        Ok(())
    }
}
