// What every stage shares: why it refuses, with the numbers of documents 01 and 02, the checks of the sides, versions and colours.
#![tactic(auto)]

ghost use Rattle.std.specs.Prelude.{◌≡◌};
ghost use Rattle.lcr_core.specs.Outcome.{refusal_number, number_of, zero_side, large_side, sides_refusal};

pub mod color;
pub mod finder;
pub mod point;
pub mod version;

// Why an operation refuses.
#[derive(Clone, Copy, Debug, PartialEq, Eq)]
pub enum Refusal {
    ZeroSide,
    LargeSide,
    UnknownFormat,
    ShortPicture,
    ShortOutput,
    FullTable,
    BadVersion,
    BadList,
    LargeFrame,
}

// The number of a refusal.
impl From<Refusal> for u8 {
    ghost from_gives = { λ refusal n. n ≡ refusal_number refusal };

    fn from(refusal: Refusal) -> u8 {
        match refusal {
            Refusal::ZeroSide => 1,
            Refusal::LargeSide => 2,
            Refusal::UnknownFormat => 3,
            Refusal::ShortPicture => 4,
            Refusal::ShortOutput => 5,
            Refusal::FullTable => 6,
            Refusal::BadVersion => 7,
            Refusal::BadList => 8,
            Refusal::LargeFrame => 10,
        }
    }
}

// The number of an answer, for C: 0 is done.
pub fn number<T: Drop>(answer: Result<T, Refusal>) -> u8
    ensures { result ≡ number_of answer }
{
    match answer {
        Ok(_) => 0,
        Err(refusal) => u8::from(refusal),
    }
}

// The longest side of a picture, in pixels.
pub const MAX_SIDE: u32 = 4096;

// Whether a side is 0.
pub fn zero_side(width: u32, height: u32) -> bool
    ensures { result ≡ zero_side width height }
{
    width == 0 || height == 0
}

// Whether a side is over the limit.
pub fn large_side(width: u32, height: u32) -> bool
    ensures { result ≡ large_side width height }
{
    MAX_SIDE < width || MAX_SIDE < height
}

// Refusals 1 and 2 of a picture's sides, in this order.
pub fn check_sides(width: u32, height: u32) -> Result<(), Refusal>
    ensures { number_of result ≡ sides_refusal width height }
{
    if zero_side(width, height) {
        return Err(Refusal::ZeroSide);
    }
    if large_side(width, height) {
        return Err(Refusal::LargeSide);
    }
    Ok(())
}
