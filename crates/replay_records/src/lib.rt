// Records and answers for the replay programs (docs/REPLAY.md): a record is read, numbers stand at places, an answer is a line of digits.
// A byte beyond a slice reads as 0 and is not written.
#![tactic(auto)]

ghost use Rattle.std.specs.Prelude.{◌≡◌, ◌+◌, ◌*◌, ◌≤◌, length, take};
ghost use Rattle.little_endian.specs.Bytes.{put};
ghost use Rattle.replay_records.specs.Record.{fixed_part, asked_of, ReadInto, digits_line, most_bytes, line_room, answer_line, line_of};

pub mod slices;
pub mod values;

// The most bytes of an answer: those of record 97, which are a number, a count of two bytes, a full table of finders and eight slices.
pub const ANSWER: usize = 1 + 2 + 16 * finders::MAX_FINDERS + 8 * 12;

// The most bytes of its line: two digits for each byte, and a line feed.
pub const LINE: usize = 2 * ANSWER + 1;

// A record that was read: its function's number, 0 where the payload is too short for it, and the payload's length.
#[derive(Clone, Copy)]
pub struct Call {
    pub function: u8,
    pub len: usize,
}

// A line of text: its first len bytes; zeros stand behind them.
#[derive(Drop)]
pub struct Line {
    pub text: [u8; LINE],
    pub len: usize,
}

impl Line {
    pub fn as_slice(&self) -> &[u8]
        ensures { result.now ≡ take self.now.len self.now.text }
    {
        slices::front(&self.text, self.len)
    }
}

// How many bytes the payload of a function has before its lists and its rest.
#[tactic(auto, unfolding(crate::specs::Record::fixed_part, crate::specs::Record::lookup))]
fn fixed_part(function: u8) -> usize
    ensures { result ≡ fixed_part function }
{
    match function {
        1 => 1,
        2 => 1,
        3 => 1,
        4 => 2,
        5 => 3,
        6 => 4,
        7 => 3,
        8 => 3,
        16 => 17,
        17 => 32,
        18 => 12,
        32 => 8,
        34 => 16,
        36 => 10,
        37 => 10,
        48 => 336,
        49 => 576,
        50 => 64,
        51 => 48,
        52 => 96,
        53 => 92,
        54 => 92,
        55 => 90,
        56 => 48,
        57 => 48,
        58 => 58,
        59 => 76,
        64 => 20,
        65 => 97,
        66 => 101,
        67 => 149,
        80 => 12,
        81 => 8,
        82 => 8,
        96 => 45,
        97 => 45,
        _ => 0,
    }
}

// A function's number, or 0, which no function has, where its payload is too short.
fn asked(function: u8, len: usize) -> u8
    ensures { result ≡ asked_of function len }
{
    if len < fixed_part(function) {
        return 0;
    }
    function
}

// Reads a record, its payload to the front of the slice; None where the input ends or the payload has no room. Not said, since the
// input decides it, is which function, payload and length are read and whether the input ends, nor what the slice holds where it does.
pub fn read(payload: &mut [u8]) -> Option<Call>
    ensures { ReadInto result payload.old payload.new }
{
    let mut head = [0u8; 5];
    if io::read_full(0, &mut head) < 5 {
        return None;
    }
    let len = little_endian::get::<u32>(&head, 1) as usize;
    if payload.len() < len {
        return None;
    }
    if io::read_full(0, &mut payload[..len]) < len {
        return None;
    }
    Some(Call {
        function: asked(head[0], len),
        len,
    })
}

// The first n bytes of an answer as hexadecimal digits and a line feed, in text; how many bytes these are.
fn spell(out: &[u8; ANSWER], n: usize, text: &mut [u8]) -> usize
    requires { (n ≤ most_bytes) × (length text.old ≡ line_room) }
    ensures line { text.new ≡ put (digits_line n out.now) 0 text.old }
    ensures len { result ≡ 2 * n + 1 }
{
    let mut room = [0u8; 16];
    for (i, b) in out[..n].iter().enumerate() {
        io::hex(*b as u64, 2, &mut room);
        text[2 * i] = room[0];
        text[2 * i + 1] = room[1];
    }
    text[2 * n] = b'\n';
    2 * n + 1
}

// The line that answers a call by the first n bytes of out, or as many as there are, at the front of text: `-` for none. How many bytes these are.
pub fn put_line(out: &[u8; ANSWER], n: usize, text: &mut [u8; LINE]) -> usize
    ensures line { text.new ≡ put (answer_line n out.now) 0 text.old }
    ensures len { result ≡ length (answer_line n out.now) }
{
    if n == 0 {
        text[0] = b'-';
        text[1] = b'\n';
        return 2;
    }
    spell(out, n.min(ANSWER), text)
}

// The same line by itself.
pub fn answer_line(out: &[u8; ANSWER], n: usize) -> Line
    ensures { result ≡ line_of (answer_line n out.now) }
{
    let mut text = [0u8; LINE];
    let len = put_line(out, n, &mut text);
    Line { text, len }
}

// What a replay program answers: to a function's number and a payload, the bytes of the answer, and how many they are: none for a function that it does not
// know. Which bytes and how many is the program's to say (docs/REPLAY.md): whatever they are, `put_line` spells them.
pub trait Answers {
    fn answer(function: u8, payload: &[u8], out: &mut [u8]) -> usize;

    // What holds of each: the slice keeps its length.
    final fn answered(function: u8, payload: &[u8], out: &mut [u8]) -> usize
        ensures { length out.new ≡ length out.old }
    {
        Self::answer(function, payload, out)
    }
}

// Reads a record and prints its answer; false where the input ends, or the line cannot be written. An answer's bytes are 0 before it is given.
fn step<A: Answers>(
    payload: &mut [u8; slices::LONGEST],
    out: &mut [u8; ANSWER],
    text: &mut [u8; LINE],
) -> bool {
    let Some(c) = read(payload) else {
        return false;
    };
    out.fill(0);
    let n = A::answered(c.function, slices::front(payload, c.len), out);
    let len = put_line(out, n, text);
    io::write_all(1, slices::front(text, len))
}

// Runs the calls of standard input, up to four thousand million, and prints a line for each.
pub fn run<A: Answers>() {
    let mut payload = [0u8; slices::LONGEST];
    let mut out = [0u8; ANSWER];
    let mut text = [0u8; LINE];
    for _ in 0..4_000_000_000u32 {
        if !step::<A>(&mut payload, &mut out, &mut text) {
            return;
        }
    }
}

#[cfg(test)]
mod tests {
    use super::*;

    struct Ones;

    // With a clause of its own, which says nothing of the slice's length.
    impl Answers for Ones {
        fn answer(function: u8, payload: &[u8], out: &mut [u8]) -> usize
            ensures { result ≤ 1 }
        {
            out.fill(1);
            if function == 7 && payload.len() < 3 {
                1
            } else {
                0
            }
        }
    }

    #[test]
    fn answers(rt: HostRuntime) {
        let mut out = [0u8; ANSWER];
        assert_eq!(rt; Ones::answer(7, &[5, 6], &mut out), 1);
        assert_eq!(rt; Ones::answer(8, &[5, 6], &mut out[..2]), 0);
        assert_eq!(rt; Ones::answered(7, &[5, 6], &mut out), 1);
        assert_eq!(rt; out[ANSWER - 1], 1);
    }
}
