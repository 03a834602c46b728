// The five-run rule of the crate ratio as a C entry, so that its machine code can be looked at by itself (`check`).
#![tactic(auto)]

ghost use Rattle.std.specs.Prelude.{◌≡◌};
ghost use Rattle.ratio.specs.Ratio.{passes};

// Whether the runs a, b, c, d and e pass.
#[unsafe(no_mangle)]
pub extern "C" fn passes_finder(a: u16, b: u16, c: u16, d: u16, e: u16) -> bool
    ensures { result ≡ passes a b c d e }
{
    ratio::passes_finder(a, b, c, d, e)
}
