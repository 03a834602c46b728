// Replays the stored list of float cases: `stdin` has the processor's answers, 2,048 for each public function of `float`, made by oracle/floats/floats.c. A line is
// the function's digit, the input and the answer, both as sixteen hexadecimal digits (oracle/floats/README.md). Prints for each function its name, how many
// cases were run and how many answers differ, and before that each line that differs with the answer given here.
#![tactic(auto)]

ghost use Rattle.std.specs.Prelude.{◌<◌};

use float::Float;

#[derive(Drop)]
struct Tally {
    cases: u64,
    wrong: u64,
}

// A hexadecimal digit; of another byte, what its low bits make of it.
fn digit(c: u8) -> u64
    ensures { result < 16 }
{
    let d = u64::from(c % 16);
    if c < b'a' { d } else { d % 7 + 9 }
}

// The number that sixteen hexadecimal digits are. Any bytes make one.
fn hex(digits: &[u8]) -> u64 {
    let mut n: u64 = 0;
    for c in digits {
        n = n % 0x1000_0000_0000_0000 * 16 + digit(*c);
    }
    n
}

// The f32 whose pattern is the input's upper or lower half.
fn upper(n: u64) -> f32 {
    f32::of_bits((n / 0x1_0000_0000) as u32)
}

fn lower(n: u64) -> f32 {
    f32::of_bits((n % 0x1_0000_0000) as u32)
}

fn wide(x: f32) -> f64 {
    std::num::f32_to_f64_with_nan(x)
}

fn pattern(x: f32) -> u64 {
    u64::from(x.bits())
}

// The pattern of n as an f64.
fn whole(n: i32) -> u64 {
    std::num::nearest_i64_to_f64(i64::from(n)).bits()
}

// What the function f gives here. A pattern is tried on a quotient, and a float made of a pattern by what the processor makes of it.
fn answer(f: u8, n: u64) -> u64 {
    match f {
        b'1' => pattern(upper(n) / lower(n)),
        b'2' => (wide(upper(n)) / wide(lower(n))).bits(),
        b'3' => wide(lower(n)).bits(),
        b'4' => (f64::of_bits(n) / 3.0).bits(),
        b'5' => pattern(Float::abs(lower(n))),
        b'6' => Float::abs(f64::of_bits(n)).bits(),
        b'7' => pattern(float::max32(upper(n), lower(n))),
        b'8' => pattern(float::min32(upper(n), lower(n))),
        b'9' => u64::from(float::to_u32(lower(n))),
        b'a' => whole(float::to_i32(lower(n))),
        b'b' => pattern(float::round32(lower(n))),
        b'c' => pattern(float::narrow(f64::of_bits(n))),
        _ => pattern(float::sqrt32(lower(n))),
    }
}

// Reads one line, and runs it as a case of the function f: whether the answer is right, or nothing where the input has ended.
fn one_case(f: u8) -> Option<bool> {
    let mut line = [0u8; 36];
    if io::read_full(0, &mut line) < 36 {
        return None;
    }
    let given = answer(f, hex(&line[2..18]));
    let right = line[0] == f && given == hex(&line[19..35]);
    if !right {
        io::write_all(1, &line);
        io::print_hex(1, given, 16);
        io::write_all(1, b"\n");
    }
    Some(right)
}

fn replay(f: u8) -> Tally {
    let mut tally = Tally { cases: 0, wrong: 0 };
    for _ in 0..2048u64 {
        let Some(right) = one_case(f) else { break };
        tally.cases += 1;
        tally.wrong += !right as u64;
    }
    tally
}

fn report(name: &str, f: u8) {
    let t = replay(f);
    io::write_all(1, name.as_bytes());
    io::write_all(1, b" ");
    io::print_decimal(1, t.cases);
    io::write_all(1, b" ");
    io::print_decimal(1, t.wrong);
    io::write_all(1, b"\n");
}

fn main() {
    for (name, f) in [
        ("bits32", b'1'),
        ("bits64", b'2'),
        ("of_bits32", b'3'),
        ("of_bits64", b'4'),
        ("abs32", b'5'),
        ("abs64", b'6'),
        ("max32", b'7'),
        ("min32", b'8'),
        ("to_u32", b'9'),
        ("to_i32", b'a'),
        ("round32", b'b'),
        ("narrow", b'c'),
        ("sqrt32", b'd'),
    ] {
        report(name, f);
    }
}
