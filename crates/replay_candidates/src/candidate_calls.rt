// Records 80 to 82: the detections of lent finders and of pictures.
ghost use Rattle.std.specs.Prelude.{◌≡◌, ◌≤◌, length, take};
ghost use Rattle.candidates.specs.Candidates.{from_answer};

use crate::picture_at;
use binary::picture::LentBits;
use candidates::{Detection, Detections};
use lcr_core::finder::Finder;
use lcr_core::{Refusal, number};
use replay_records::values;

// The most finders that are lent.
const LENT: usize = 1200;

// The detections of a table's first n finders, lent as a list.
fn lend(bits: LentBits<'_>, list: [Finder; LENT], n: usize) -> Result<Detections, Refusal>
    requires { n ≤ length list }
    ensures { let p = bits.entry in result ≡ from_answer p.bits.now p.width p.height (take n list) }
{
    candidates::candidates_from(bits, &list[..n])
}

// The finders that a record's list can have; what follows the list is read as finders too, and not lent.
fn list_at(p: &[u8]) -> [Finder; LENT] {
    let mut list = [Finder::zero(); LENT];
    for (i, f) in list.iter_mut().enumerate() {
        *f = values::read_finder(p, 12 + 16 * i as u16);
    }
    list
}

// An answer's bytes: after a refusal its number and the empty table.
fn put_answer(out: &mut [u8], answer: Result<Detections, Refusal>) -> usize {
    let found = answer.unwrap_or(candidates::no_detections());
    values::put_graded(out, number(answer), found)
}

fn candidates_from(p: &[u8], out: &mut [u8]) -> usize {
    let n = little_endian::get::<u32>(p, 8) as usize;
    if LENT < n {
        return 0;
    }
    if p.len() < 12 + 16 * n {
        return 0;
    }
    let answer = lend(picture_at(p, 12 + 16 * n), list_at(p), n);
    put_answer(out, answer)
}

fn detect_candidates(p: &[u8], out: &mut [u8]) -> usize {
    let answer = candidates::detect_candidates(picture_at(p, 8));
    put_answer(out, answer)
}

// The table of the first detection, if there is one.
fn table_of(first: Option<Detection>) -> Detections {
    let mut found = candidates::no_detections();
    if let Some(d) = first {
        found.at[0] = d;
        found.count = 1;
    }
    found
}

fn detect(p: &[u8], out: &mut [u8]) -> usize {
    let first = candidates::detect(picture_at(p, 8));
    put_answer(out, first.map(|first| table_of(first)))
}

pub fn answer(function: u8, p: &[u8], out: &mut [u8]) -> usize {
    match function {
        80 => candidates_from(p, out),
        81 => detect_candidates(p, out),
        82 => detect(p, out),
        _ => 0,
    }
}
