// The finders of a stored list.
ghost use Rattle.std.specs.Prelude.{◌≡◌, ◌≤◌, ◌<◌};
ghost use Rattle.lists.specs.Lists.{tabulate};
ghost use Rattle.finders.specs.Search.{max_finders};
ghost use Rattle.finders.specs.Answer.{finders_table};
ghost use Rattle.stored.specs.Stored.{form_in, stored_finder};
ghost use Rattle.stored.specs.Inner.{head_in};

use super::check::Head;
use finders::{Finders, no_finders};
use float::Float;
use lcr_core::finder::Finder;
use little_endian::get;

// Finder k of a list with such a head.
#[tactic(auto, unfolding(crate::specs::Stored::stored_finder))]
fn stored_finder(bytes: &[u8], head: Head, k: u32) -> Finder
    requires { (head ≡ head_in bytes.now) × (head.count ≤ max_finders) × (k < head.count) }
    ensures { result ≡ stored_finder (form_in bytes.now) bytes.now head.count k }
{
    let places = head.size + 8 * k;
    let modules = head.size + 8 * head.count + 8 * k;
    Finder {
        x: f32::of_bits(get::<u32>(bytes, places)),
        y: f32::of_bits(get::<u32>(bytes, places + 4)),
        module: f32::of_bits(get::<u32>(bytes, modules)),
        confirmations: get::<u32>(bytes, modules + 4),
    }
}

#[tactic(auto, using(crate::proofs::Pass::one_more), unfolding(lists::specs::Lists::tabulate))]
pub fn read_finders(bytes: &[u8], head: Head) -> Finders
    requires { (head ≡ head_in bytes.now) × (head.count ≤ max_finders) }
    ensures { result ≡ finders_table (tabulate head.count (stored_finder (form_in bytes.now) bytes.now head.count)) }
{
    let mut out = no_finders();
    for k in 0..head.count {
        let at = k as usize;
        out.table[at] = stored_finder(bytes, head, k);
        out.count = at + 1;
    }
    out
}
