// What the reader and the writer refuse.
ghost use Rattle.std.specs.Prelude.{◌≡◌, ◌≤◌, length, IfOk};
ghost use Rattle.std.specs.Option.{is_none, IfSome};
ghost use Rattle.lcr_core.specs.Outcome.{number_of, first_of};
ghost use Rattle.finders.specs.Search.{max_finders};
ghost use Rattle.stored.specs.Stored.{form_two, no_form, form_in, count_in, size_of, bad_length, many_finders, short_output, read_refusal, write_checks};
ghost use Rattle.stored.specs.Inner.{head_in};

use lcr_core::{Refusal, check_sides};
use little_endian::get;

// How many finders a list of form 1 has at most.
const MOST_OF_FORM_ONE: u32 = 128;

// The bytes before the pairs in form 1: the form, the width, the height, and a count of one byte.
const HEAD_OF_FORM_ONE: u32 = 6;

// Those in form 2, whose count has two bytes.
pub const HEAD_OF_FORM_TWO: u32 = 7;

// What the head of a list says: how many bytes it has itself, and of the finders how many its form has at most and how many there are.
#[derive(Clone, Copy)]
pub struct Head {
    pub size: u32,
    pub most: u32,
    pub count: u32,
}

// The head of a list in the form that its first byte names, if it names one.
#[tactic(auto, using(little_endian::proofs::One::read_one))]
fn head_of(bytes: &[u8]) -> Option<Head>
    ensures none { is_none result ≡ no_form bytes.now }
    ensures head { IfSome result (λ head. head ≡ head_in bytes.now) }
{
    match get::<u8>(bytes, 0) {
        1 => Some(Head {
            size: HEAD_OF_FORM_ONE,
            most: MOST_OF_FORM_ONE,
            count: get::<u8>(bytes, 5) as u32,
        }),
        2 => Some(Head {
            size: HEAD_OF_FORM_TWO,
            most: finders::MAX_FINDERS as u32,
            count: get::<u16>(bytes, 5) as u32,
        }),
        _ => None,
    }
}

// Whether there are more finders than the form has at most, or the length is not that of so many.
#[tactic(auto, unfolding(crate::specs::Stored::bad_length, crate::specs::Stored::many_finders))]
fn bad_length(bytes: &[u8], head: Head) -> bool
    requires { head ≡ head_in bytes.now }
    ensures { result ≡ bad_length (form_in bytes.now) (length bytes.now) (count_in bytes.now) }
{
    head.most < head.count || bytes.len() != head.size as usize + 16 * head.count as usize
}

#[tactic(auto, unfolding(crate::specs::Stored::many_finders))]
fn many_finders(count: usize) -> bool
    ensures { result ≡ many_finders form_two count }
{
    finders::MAX_FINDERS < count
}

// The bytes of a list of so many finders in form 2.
pub fn size_of(count: usize) -> usize
    requires { count ≤ max_finders }
    ensures { result ≡ size_of count }
{
    HEAD_OF_FORM_TWO as usize + 16 * count
}

#[tactic(auto, unfolding(crate::specs::Stored::short_output))]
fn short_output(len: usize, count: usize) -> bool
    requires { count ≤ max_finders }
    ensures { result ≡ short_output len count }
{
    len < size_of(count)
}

// The head of a list, or refusal 8, 1, 2 or 8.
#[tactic(auto, using(crate::proofs::Forms::head_cases, crate::proofs::Pass::few_read, lcr_core::proofs::Checks::sides_then, lcr_core::proofs::Checks::sides_refused, lcr_core::proofs::Checks::same_number), unfolding(crate::specs::Stored::read_refusal))]
pub fn check_read(bytes: &[u8]) -> Result<Head, Refusal>
    ensures number { number_of result ≡ read_refusal bytes.now }
    ensures head { IfOk result (λ head. (head ≡ head_in bytes.now) × (head.count ≤ max_finders)) }
{
    let Some(head) = head_of(bytes) else {
        return Err(Refusal::BadList);
    };
    if bytes.len() < head.size as usize {
        return Err(Refusal::BadList);
    }
    let width = get::<u16>(bytes, 1);
    let height = get::<u16>(bytes, 3);
    check_sides(width as u32, height as u32)?;
    if bad_length(bytes, head) {
        return Err(Refusal::BadList);
    }
    Ok(head)
}

// Refusal 1, 2, 8 or 5 of a list of so many finders, with len bytes of room.
#[tactic(auto, using(crate::proofs::Pass::few_finders, lcr_core::proofs::Checks::sides_then, lcr_core::proofs::Checks::sides_refused, lcr_core::proofs::Checks::same_number))]
pub fn check_write(count: usize, width: u32, height: u32, len: usize) -> Result<(), Refusal>
    ensures { number_of result ≡ first_of (write_checks count width height len) }
{
    check_sides(width, height)?;
    if many_finders(count) {
        return Err(Refusal::BadList);
    }
    if short_output(len, count) {
        return Err(Refusal::ShortOutput);
    }
    Ok(())
}
