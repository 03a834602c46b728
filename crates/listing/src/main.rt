// Document 01's listing program: reads the input, of which as many bytes are enough (theorem `read_enough` of crate listing_text), and writes its listing,
// every character of which is proved there.
#![tactic(auto)]

fn main() {
    let mut input = [0u8; 40004];
    let n = io::read_full(0, &mut input);
    let mut text = [0u8; listing_text::ROOM];
    let k = listing_text::listing(&input[..n], &mut text);
    io::write_all(1, &text[..k]);
}
