// Gray conversion.
#![tactic(auto)]

ghost use Rattle.std.specs.Prelude.{◌≡◌, ◌+◌, ◌*◌, ◌≤◌, ◌<◌, length, IfOk};
ghost use Rattle.lists.specs.Lists.{tabulate, filled};
ghost use Rattle.lcr_core.specs.Outcome.{number_of};
ghost use Rattle.gray.specs.Gray.{short_picture, gray_refusal, gray_rule, gray_of, gray_at, gray_written, channels_of};
ghost use Rattle.gray.specs.Passed.{KnownFormat, GrayPassed};

pub mod format;

use format::PixelFormat;
use lcr_core::{Refusal, check_sides};

// Pixels that are lent as a picture of width × height, in rows of stride bytes, whether they are one or not.
#[derive(Clone, Copy)]
pub struct LentPixels<'a> {
    pub data: &'a [u8],
    pub width: u32,
    pub height: u32,
    pub stride: u32,
    pub format: u8,
}

// Whether the stride or the picture's bytes are too few.
#[tactic(auto, unfolding(crate::specs::Gray::short_picture))]
fn short_picture(len: usize, width: u32, height: u32, stride: u32, channels: usize) -> bool
    requires { (0 < height) × (height ≤ 4096) × (channels ≤ 255) }
    ensures { result ≡ short_picture len width height stride channels }
{
    let stride = stride as usize;
    let row = width as usize * channels;
    stride < row || len < (height as usize - 1) * stride + row
}

// The format of a picture of `len` bytes, or what gray conversion refuses of it, with `room` bytes for the result.
fn checked_format(
    len: usize,
    width: u32,
    height: u32,
    stride: u32,
    format: u8,
    room: usize,
) -> Result<PixelFormat, Refusal>
    ensures number { number_of result ≡ gray_refusal len width height stride format room }
    ensures format { IfOk result (λ known. channels_of known ≡ format) }
{
    check_sides(width, height)?;
    let known = PixelFormat::try_from(format)?;
    if short_picture(len, width, height, stride, known.channels()) {
        return Err(Refusal::ShortPicture);
    }
    if room < width as usize * height as usize {
        return Err(Refusal::ShortOutput);
    }
    Ok(known)
}

// What gray conversion refuses of `len` bytes, with `room` bytes for the result.
pub fn check_gray_lengths(
    len: usize,
    width: u32,
    height: u32,
    stride: u32,
    format: u8,
    room: usize,
) -> Result<(), Refusal>
    ensures { number_of result ≡ gray_refusal len width height stride format room }
{
    checked_format(len, width, height, stride, format, room)?;
    Ok(())
}

// What it refuses of pixels that are lent.
pub fn check_gray(pixels: LentPixels<'_>, room: usize) -> Result<(), Refusal>
    ensures { let p = pixels.entry in number_of result ≡ gray_refusal (length p.«data».now) p.width p.height p.stride p.format room }
{
    check_gray_lengths(
        pixels.data.len(),
        pixels.width,
        pixels.height,
        pixels.stride,
        pixels.format,
        room,
    )
}

// The gray value of a colour, to the nearest.
fn luma(r: u8, g: u8, b: u8) -> u8
    ensures { result ≡ gray_rule r g b }
{
    ((54 * r as u32 + 183 * g as u32 + 19 * b as u32 + 128) / 256) as u8
}

// The gray value of a pixel of STEP bytes, the first of which stands at `at`: a gray pixel keeps its value.
#[tactic(auto, using(crate::proofs::GrayLaws::gray_colour), unfolding(crate::specs::Gray::gray_of))]
fn gray_pixel<const STEP: usize>(src: &[u8], at: usize) -> u8
    requires { KnownFormat STEP × (at + STEP ≤ length src.now) }
    ensures { result ≡ gray_of src.now STEP at }
{
    if STEP == 1 {
        src[at]
    } else {
        luma(src[at], src[at + 1], src[at + 2])
    }
}

// A row of pixels of STEP bytes. Gray pixels are copied here too: `copy_from_slice` takes 1.1 to 1.3 times as long for rows of 640 to 4,096 bytes.
#[tactic(auto, using(crate::proofs::GrayLaws::row_steps))]
fn row_of<const STEP: usize>(src: &[u8], out: &mut [u8])
    requires { KnownFormat STEP × (length src.now ≡ length out.old * STEP) }
    ensures { out.new ≡ tabulate (length out.old) (λ x. gray_of src.now STEP (x * STEP)) }
{
    for (x, gray) in out.iter_mut().enumerate() {
        *gray = gray_pixel::<STEP>(src, x * STEP);
    }
}

// A row of pixels.
fn gray_row(src: &[u8], format: PixelFormat, out: &mut [u8])
    requires { length src.now ≡ length out.old * channels_of format }
    ensures { out.new ≡ tabulate (length out.old) (λ x. gray_of src.now (channels_of format) (x * channels_of format)) }
{
    match format {
        PixelFormat::Gray8 => row_of::<1>(src, out),
        PixelFormat::Rgb8 => row_of::<3>(src, out),
        PixelFormat::Rgba8 => row_of::<4>(src, out),
    }
}

// All rows of a picture that passed the checks.
#[tactic(auto, using(lists::proofs::Tabulate::filled_none))]
fn gray_rows(pixels: LentPixels<'_>, format: PixelFormat, gray: &mut [u8])
    requires { let p = pixels in GrayPassed (length p.«data».now) p.width p.height p.stride (channels_of format) (length gray.old) }
    ensures { let p = pixels.entry in gray.new ≡ filled (p.width * p.height) (gray_at p.«data».now p.width p.stride (channels_of format)) gray.old }
{
    let data = pixels.data;
    let w = pixels.width as usize;
    let h = pixels.height as usize;
    let stride = pixels.stride as usize;
    let row = w * format.channels();
    for y in 0..h {
        let from = y * stride;
        let at = y * w;
        gray_row(&data[from..from + row], format, &mut gray[at..at + w]);
    }
}

// Gray conversion of a picture of width × height pixels in rows of stride bytes, into the first width × height bytes of gray.
#[tactic(auto, using(crate::proofs::GrayLaws::answer_steps), unfolding(crate::specs::Gray::gray_written))]
pub fn gray_buffer(pixels: LentPixels<'_>, gray: &mut [u8]) -> Result<(), Refusal>
    ensures number { let p = pixels.entry in number_of result ≡ gray_refusal (length p.«data».now) p.width p.height p.stride p.format (length gray.old) }
    ensures written { let p = pixels.entry in gray.new ≡ gray_written p.«data».now p.width p.height p.stride p.format gray.old }
{
    let known = checked_format(
        pixels.data.len(),
        pixels.width,
        pixels.height,
        pixels.stride,
        pixels.format,
        gray.len(),
    )?;
    gray_rows(pixels, known, gray);
    Ok(())
}
