// Marked means in two groups.
ghost use Rattle.std.specs.Prelude.{◌≡◌, cond, ◌||◌, ◌+◌, ◌*◌, ◌/◌, ◌≤◌, ◌<◌, eqb};

// The marked means of a window in two groups, those up to a bound and those above: the sum and the number of each. Each mean is a byte.
#[derive(Clone, Copy)]
pub struct Split {
    pub low: u32,
    pub lows: u32,
    pub high: u32,
    pub highs: u32,
    pub ghost low_bytes: { low ≤ 255 * lows },
    pub ghost high_bytes: { high ≤ 255 * highs },
    pub ghost few: { lows + highs ≤ 8388607 },
}

impl Split {
    ghost use Rattle.binarize.specs.Splits.{with_block, no_block, tally_of};

    // No block yet.
    pub fn new() -> Self
        ensures { tally_of result ≡ no_block }
    {
        Split {
            low: 0,
            lows: 0,
            high: 0,
            highs: 0,
        }
    }

    // One block more, which counts if it is marked: by products with 0 or 1, since no branch could be foretold.
    #[tactic(auto, using(crate::proofs::Products::counted_is))]
    pub fn with_block(self, v: u8, mark: u8, bound: u8) -> Self
        requires { self.lows + self.highs < 8388607 }
        ensures counted { tally_of result ≡ with_block bound (tally_of self) v mark }
        ensures one_more { result.lows + result.highs ≤ self.lows + self.highs + 1 }
    {
        let on = u32::from(mark == 1);
        let low = on * u32::from(v <= bound);
        let high = on - low;
        Split {
            low: self.low + v as u32 * low,
            lows: self.lows + low,
            high: self.high + v as u32 * high,
            highs: self.highs + high,
        }
    }

    // The mean of all.
    pub fn mean(self) -> u8
        requires { 0 < self.lows + self.highs }
        ensures { result ≡ (self.low + self.high) / (self.lows + self.highs) }
    {
        ((self.low + self.high) / (self.lows + self.highs)) as u8
    }

    // Half the sum of the two groups' means, or the mean of all where a group is empty.
    #[tactic(auto, using(lists::proofs::Numbers::mean_small))]
    pub fn midpoint(self, mean: u8) -> u8
        ensures { result ≡ cond (eqb self.lows 0 || eqb self.highs 0) mean ((self.low / self.lows + self.high / self.highs) / 2) }
    {
        if self.lows == 0 || self.highs == 0 {
            return mean;
        }
        ((self.low / self.lows + self.high / self.highs) / 2) as u8
    }
}
