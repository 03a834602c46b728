// Records 32 to 34, 36 and 37: the finder search, the stored list, the five-run test and how a run ended.
use binary::line::{End, Line, Run};
use binary::picture::LentBits;
use replay_records::{slices, values};

fn find_finders(p: &[u8], out: &mut [u8]) -> usize {
    let answer = finders::find_finders(LentBits {
        bits: slices::rest(p, 8),
        width: little_endian::get::<u32>(p, 0),
        height: little_endian::get::<u32>(p, 4),
    });
    little_endian::put::<u8>(out, 0, lcr_core::number(answer));
    values::put_finders(out, 1, answer.unwrap_or(finders::no_finders()))
}

fn read_list(p: &[u8], out: &mut [u8]) -> usize {
    match stored::read_list(p) {
        Ok(list) => {
            little_endian::put::<u32>(out, 1, list.width as u32);
            little_endian::put::<u32>(out, 5, list.height as u32);
            values::put_finders(out, 9, list.finders)
        }
        Err(refusal) => {
            little_endian::put::<u8>(out, 0, u8::from(refusal));
            11
        }
    }
}

fn write_list(p: &[u8], out: &mut [u8]) -> usize {
    if !slices::lendable(p, 8, 1) {
        return 0;
    }
    let mut list = [0u8; slices::LONGEST];
    let written = stored::write_list(
        values::finders_at(p, 16, little_endian::get::<u32>(p, 12)),
        little_endian::get::<u32>(p, 0),
        little_endian::get::<u32>(p, 4),
        slices::lent(&mut list, p, 8),
    );
    little_endian::put::<u8>(out, 0, lcr_core::number(written));
    slices::put_lent(out, 1, &list, p, 8);
    13
}

fn matches_finder(p: &[u8], out: &mut [u8]) -> usize {
    let module = ratio::matches_finder(
        little_endian::get::<u16>(p, 0),
        little_endian::get::<u16>(p, 2),
        little_endian::get::<u16>(p, 4),
        little_endian::get::<u16>(p, 6),
        little_endian::get::<u16>(p, 8),
    );
    if let Some(module) = module {
        little_endian::put::<u8>(out, 0, 1);
        values::put_float(out, 1, module);
    }
    5
}

// The run forwards from a pixel, or the one backwards before it, of a line that starts with the rest's first pixel.
fn limited_run(p: &[u8]) -> Run {
    let line = Line {
        bits: slices::rest(p, 10),
        start: 0,
        stride: 1,
        len: little_endian::get::<u16>(p, 0),
    };
    let from = little_endian::get::<u16>(p, 2);
    let limit = little_endian::get::<u32>(p, 4) as u64;
    let want = little_endian::get::<u8>(p, 9) == 1;
    if little_endian::get::<u8>(p, 8) == 1 {
        return line.limited_back(from, limit, want);
    }
    line.limited_on(from, limit, want)
}

fn run_end(p: &[u8], out: &mut [u8]) -> usize {
    let r = limited_run(p);
    little_endian::put::<u16>(out, 0, r.count);
    let end = match r.end {
        End::Change => 0,
        End::Edge => 1,
        End::Limit => 2,
    };
    little_endian::put::<u8>(out, 2, end);
    3
}

pub fn answer(function: u8, p: &[u8], out: &mut [u8]) -> usize {
    match function {
        32 => find_finders(p, out),
        33 => read_list(p, out),
        34 => write_list(p, out),
        36 => matches_finder(p, out),
        37 => run_end(p, out),
        _ => 0,
    }
}
