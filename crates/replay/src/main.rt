// Runs calls from standard input and prints their answers, a line each (docs/REPLAY.md): records 1 to 8, 32 to 34, 36, 37 and 48 to 59.
#![tactic(auto)]

mod core_calls;
mod finder_calls;
mod geometry_calls;

// The calls that this program answers.
struct Calls;

impl replay_records::Answers for Calls {
    fn answer(function: u8, p: &[u8], out: &mut [u8]) -> usize {
        if function < 32 {
            return core_calls::answer(function, p, out);
        }
        if function < 48 {
            return finder_calls::answer(function, p, out);
        }
        geometry_calls::answer(function, p, out)
    }
}

fn main() {
    replay_records::run::<Calls>();
}
