// Document 01's cases that a program runs: the spread that makes an edge, and the version of an estimated side.
#![tactic(auto)]

use blocks::Blocks;
use blocks::picture::LentGray;
use geometry::Corners;
use lcr_core::finder::Finder;

// The edge mark of a block of 8 × 8 pixels of gray 100, but for one of gray `other`.
fn edge_mark(other: u8) -> u8 {
    let mut gray = [100u8; 64];
    gray[27] = other;
    let mut means = [0u8; 1];
    let mut least = [0u8; 1];
    let mut greatest = [0u8; 1];
    let mut edges = [7u8; 1];
    let mut nears = [0u8; 1];
    let lent = LentGray {
        gray: &gray,
        width: 8,
        height: 8,
    };
    let mut blocks = Blocks {
        means: &mut means,
        least: &mut least,
        greatest: &mut greatest,
        edges: &mut edges,
        nears: &mut nears,
    };
    let _ = blocks::block_values(lent, &mut blocks);
    edges[0]
}

fn print_spread(spread: u8) {
    io::write_all(1, b"spread ");
    io::print_decimal(1, spread as u64);
    io::write_all(1, b": edge mark ");
    io::print_decimal(1, edge_mark(100 + spread % 100) as u64);
    io::write_all(1, b"\n");
}

// A finder of module 1.
fn finder(x: f32, y: f32) -> Finder {
    Finder {
        x,
        y,
        module: 1.0,
        confirmations: 2,
    }
}

// The version of finders whose centres are `apart` modules apart, which makes the side `apart` + 7.
fn print_side(apart: f32, side: u64) {
    io::write_all(1, b"estimated side ");
    io::print_decimal(1, side);
    let c = Corners {
        tl: finder(0.0, 0.0),
        tr: finder(apart, 0.0),
        bl: finder(0.0, apart),
    };
    if let Some(v) = geometry::estimate_version(c) {
        io::write_all(1, b": version ");
        io::print_decimal(1, v.get() as u64);
    } else {
        io::write_all(1, b": none");
    }
    io::write_all(1, b"\n");
}

fn main() {
    print_spread(24);
    print_spread(25);
    print_side(16.0, 23);
    print_side(12.0, 19);
}
