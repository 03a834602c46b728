// Five runs against 1:1:3:1:1, decided in whole numbers; the module of those that pass.
#![tactic(auto)]

ghost use Rattle.std.specs.Prelude.{◌≡◌, ◌*◌, ◌≤◌};
ghost use Rattle.ratio.specs.Ratio.{near_one, near_three, passes, match_of};

// Whether the outer run r is near one module, where the four outer runs have the sum s: 20 × |4r - s| ≤ 11 × s without the distance.
fn near_one(r: u16, s: u32) -> bool
    requires { s ≤ 4 * 65535 }
    ensures { result ≡ near_one s r }
{
    let n = 80 * r as u32;
    (9 * s <= n) & (n <= 31 * s)
}

// Whether the centre run c is near three modules: 20 × |4c - 3s| ≤ 33 × s without the distance.
fn near_three(c: u16, s: u32) -> bool
    requires { s ≤ 4 * 65535 }
    ensures { result ≡ near_three s c }
{
    let n = 80 * c as u32;
    (27 * s <= n) & (n <= 93 * s)
}

// Whether the runs a, b, c, d and e pass. Most fail by the centre run, so it is tried first; where it is near three and the total at least 7, s is not 0.
// The crate ratio_c exports it, so that its machine code can be looked at by itself (`check`).
pub fn passes_finder(a: u16, b: u16, c: u16, d: u16, e: u16) -> bool
    ensures { result ≡ passes a b c d e }
{
    let s = a as u32 + b as u32 + d as u32 + e as u32;
    if !near_three(c, s) {
        return false;
    }
    if s + (c as u32) < 7 {
        return false;
    }
    near_one(a, s) & near_one(b, s) & near_one(d, s) & near_one(e, s)
}

// The module of the runs a, b, c, d and e where they pass; nothing for a total over the longest side.
pub fn matches_finder(a: u16, b: u16, c: u16, d: u16, e: u16) -> Option<f32>
    ensures { result ≡ match_of a b c d e }
{
    if !passes_finder(a, b, c, d, e) {
        return None;
    }
    let total = a as u32 + b as u32 + c as u32 + d as u32 + e as u32;
    if lcr_core::MAX_SIDE < total {
        return None;
    }
    Some(total as f32 / 7.0)
}
