// Runs along a line of a bit picture.
ghost use Rattle.std.specs.Prelude.{◌≡◌, ◌-◌, ◌≤◌};
ghost use Rattle.binary.specs.Line.{pixel, run, run_back, end_by, limited_before, limited_after};

use super::bit_of;

// How a run ended: at a pixel of the other colour, at the picture's edge, or at its limit.
#[derive(Clone, Copy, PartialEq, Eq)]
pub enum End {
    Change,
    Edge,
    Limit,
}

// How many pixels a run has, and how it ended.
#[derive(Clone, Copy)]
pub struct Run {
    pub count: u16,
    pub end: End,
}

// How a run of the colour `want` (true for dark) ended that the pixel `next` follows.
fn end_by(next: bool, want: bool) -> End
    ensures { result ≡ end_by want next }
{
    if next == want {
        return End::Limit;
    }
    End::Change
}

// A line of a bit picture, as a row or a column: pixels start, start + stride, start + 2 × stride and so on, `len` of them.
#[derive(Clone, Copy)]
pub struct Line<'a> {
    pub bits: &'a [u8],
    pub start: u32,
    pub stride: u32,
    pub len: u16,
}

impl<'a> Line<'a> {
    // Pixel k.
    fn is_dark(self, k: u32) -> bool
        requires { k ≤ 131070 }
        ensures { let l = self.entry in result ≡ pixel l.bits.now l.start l.stride k }
    {
        bit_of(
            self.bits,
            self.start as usize + k as usize * self.stride as usize,
        ) == 1
    }

    // How many pixels of the colour `want` stand together from pixel `from` on, `left` at most, whether the line has so many or not.
    pub fn run_on(self, from: u16, left: u16, want: bool) -> u16
        ensures run { let l = self.entry in result ≡ run want (pixel l.bits.now l.start l.stride) from left }
        ensures most { result ≤ left }
    {
        for n in 0..left {
            if self.is_dark(from as u32 + n as u32) != want {
                return n;
            }
        }
        left
    }

    // The same before pixel `from`, the nearest first.
    pub fn run_back(self, from: u16, left: u16, want: bool) -> u16
        ensures run { let l = self.entry in result ≡ run_back want (pixel l.bits.now l.start l.stride) from left }
        ensures most { (result ≤ left) × (result ≤ from) }
    {
        let most = left.min(from);
        for n in 0..most {
            if self.is_dark((from - n - 1) as u32) != want {
                return n;
            }
        }
        most
    }

    // The run of the colour `want` from pixel `from` on, `limit` at most, and how it ended. Only where nothing ended it before are the edge and the next
    // pixel asked.
    pub fn limited_on(self, from: u16, limit: u64, want: bool) -> Run
        ensures run { let l = self.entry in result ≡ limited_after want (pixel l.bits.now l.start l.stride) l.len limit from }
        ensures most { result.count ≤ self.entry.len - from }
    {
        let most = limit.min(self.len.saturating_sub(from) as u64) as u16;
        let count = self.run_on(from, most, want);
        if count < most {
            return Run {
                count,
                end: End::Change,
            };
        }
        let next = from as u32 + count as u32;
        if self.len as u32 <= next {
            return Run {
                count,
                end: End::Edge,
            };
        }
        let end = end_by(self.is_dark(next), want);
        Run { count, end }
    }

    // The same before pixel `from`, the nearest first.
    pub fn limited_back(self, from: u16, limit: u64, want: bool) -> Run
        ensures run { let l = self.entry in result ≡ limited_before want (pixel l.bits.now l.start l.stride) limit from }
        ensures most { result.count ≤ from }
    {
        let most = limit.min(from as u64) as u16;
        let count = self.run_back(from, most, want);
        if count < most {
            return Run {
                count,
                end: End::Change,
            };
        }
        let left = from - count;
        if left == 0 {
            return Run {
                count,
                end: End::Edge,
            };
        }
        let end = end_by(self.is_dark((left - 1) as u32), want);
        Run { count, end }
    }
}
