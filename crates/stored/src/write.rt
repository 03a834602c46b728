// The bytes of a stored list in form 2: the head, the pair (x, y) of each finder, and then the pair (module, confirmations) of each.
ghost use Rattle.std.specs.Prelude.{◌≡◌, ◌++◌, ◌+◌, ◌*◌, ◌≤◌, ◌<◌, ◌^◌, length};
ghost use Rattle.lists.specs.Lists.{flat_map, written};
ghost use Rattle.little_endian.specs.Bytes.{bytes_le, put};
ghost use Rattle.finders.specs.Search.{max_finders};
ghost use Rattle.finders.specs.Answer.{held_in};
ghost use Rattle.stored.specs.Stored.{form_two, head_size, head_bytes, place_bytes, module_bytes, size_of, stored_bytes};

use crate::check::HEAD_OF_FORM_TWO;
use finders::Finders;
use float::Float;
use little_endian::put;

#[tactic(auto, using(crate::proofs::Bytes::head_is))]
fn put_head(out: &mut [u8], width: u16, height: u16, count: u16)
    ensures { out.new ≡ put (head_bytes form_two width height count) 0 out.old }
{
    put::<u8>(out, 0, 2);
    put::<u16>(out, 1, width);
    put::<u16>(out, 3, height);
    put::<u16>(out, 5, count);
}

#[tactic(auto, using(little_endian::proofs::Pieces::pair_is))]
fn put_pair(out: &mut [u8], at: u32, a: u32, b: u32)
    requires { at < 2 ^ 16 }
    ensures { out.new ≡ put (bytes_le 4 a ++ bytes_le 4 b) at out.old }
{
    put::<u32>(out, at, a);
    put::<u32>(out, at + 4, b);
}

#[tactic(auto, using(crate::proofs::Bytes::place_more), unfolding(lists::specs::Lists::flat_map, little_endian::specs::Bytes::put))]
fn put_places(out: &mut [u8], t: Finders)
    requires { t.count ≤ max_finders }
    ensures { out.new ≡ put (flat_map place_bytes (held_in t)) (head_size form_two) out.old }
{
    for (k, f) in t.table[..t.count].iter().enumerate() {
        put_pair(out, HEAD_OF_FORM_TWO + 8 * k as u32, f.x.bits(), f.y.bits());
    }
}

#[tactic(auto, using(crate::proofs::Bytes::module_more), unfolding(lists::specs::Lists::flat_map, little_endian::specs::Bytes::put))]
fn put_modules(out: &mut [u8], t: Finders)
    requires { t.count ≤ max_finders }
    ensures { out.new ≡ put (flat_map module_bytes (held_in t)) (head_size form_two + 8 * t.count) out.old }
{
    for (k, f) in t.table[..t.count].iter().enumerate() {
        put_pair(
            out,
            HEAD_OF_FORM_TWO + 8 * t.count as u32 + 8 * k as u32,
            f.module.bits(),
            f.confirmations,
        );
    }
}

#[tactic(auto, using(crate::proofs::Bytes::stored_is))]
pub fn put_list(out: &mut [u8], t: Finders, width: u16, height: u16)
    requires { (t.count ≤ max_finders) × (size_of t.count ≤ length out.old) }
    ensures { out.new ≡ written (stored_bytes width height (held_in t)) out.old }
{
    let count = t.count;
    put_head(out, width, height, count as u16);
    put_places(out, t);
    put_modules(out, t);
}
