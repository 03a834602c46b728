// The stored list of a picture's finders: its reader and its writer.
#![tactic(auto)]

ghost use Rattle.std.specs.Prelude.{◌≡◌, length, IfOk};
ghost use Rattle.lists.specs.Lists.{written};
ghost use Rattle.lcr_core.specs.Outcome.{number_of, if_refused};
ghost use Rattle.finders.specs.Answer.{held_in};
ghost use Rattle.stored.specs.Stored.{size_of, stored_bytes, write_refusal, read_of};

use finders::Finders;
use lcr_core::Refusal;
use little_endian::get;

mod check;
mod read;
mod write;

// The bytes of the longest list.
pub const MAX_SIZE: usize = check::HEAD_OF_FORM_TWO as usize + 16 * finders::MAX_FINDERS;

// What a stored list holds.
#[derive(Clone, Copy)]
pub struct Stored {
    pub width: u16,
    pub height: u16,
    pub finders: Finders,
}

// The sides and the finders of a stored list, or a refusal: 8, 1, 2 or 8, in this order.
#[tactic(auto, using(lcr_core::proofs::Answers::refused_by, lcr_core::proofs::Answers::checked_passed), unfolding(crate::specs::Stored::read_refusal, crate::specs::Stored::read_of))]
pub fn read_list(bytes: &[u8]) -> Result<Stored, Refusal>
    ensures { result ≡ read_of bytes.now }
{
    let head = check::check_read(bytes)?;
    Ok(Stored {
        width: get::<u16>(bytes, 1),
        height: get::<u16>(bytes, 3),
        finders: read::read_finders(bytes, head),
    })
}

// Stores the finders of a picture of such sides and answers how many bytes it wrote, or refuses: 1, 2, 8 or 5, in this order.
#[tactic(auto, using(lcr_core::proofs::Checks::same_number, lcr_core::proofs::Checks::if_refused_error, crate::proofs::Pass::write_pass), unfolding(crate::specs::Stored::write_refusal))]
pub fn write_list(finders: Finders, width: u32, height: u32, out: &mut [u8]) -> Result<u32, Refusal>
    ensures refusal { number_of result ≡ write_refusal finders width height (length out.old) }
    ensures len { IfOk result (λ len. len ≡ size_of finders.count) }
    ensures bytes { out.new ≡ if_refused (number_of result) out.old (written (stored_bytes width height (held_in finders)) out.old) }
{
    let count = finders.count;
    check::check_write(count, width, height, out.len())?;
    write::put_list(out, finders, width as u16, height as u16);
    Ok(check::size_of(count) as u32)
}
