// Runs calls from standard input and prints their answers, a line each (docs/REPLAY.md): records 64 to 67 and 80 to 82.
#![tactic(auto)]

use binary::picture::LentBits;
use replay_records::slices;

mod alignment_calls;
mod candidate_calls;

// The picture of a record: its sides stand first, its bits from a place on.
fn picture_at(p: &[u8], at: usize) -> LentBits<'_> {
    LentBits {
        bits: slices::rest(p, at),
        width: little_endian::get::<u32>(p, 0),
        height: little_endian::get::<u32>(p, 4),
    }
}

// The calls that this program answers.
struct Calls;

impl replay_records::Answers for Calls {
    fn answer(function: u8, p: &[u8], out: &mut [u8]) -> usize {
        if function < 80 {
            return alignment_calls::answer(function, p, out);
        }
        candidate_calls::answer(function, p, out)
    }
}

fn main() {
    replay_records::run::<Calls>();
}
