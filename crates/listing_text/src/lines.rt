// The listing's lines.
ghost use Rattle.std.specs.Prelude.{◌≡◌, ℕ, List, ◌+◌, ◌*◌, ◌^◌, ◌≤◌, ◌<◌, length};
ghost use Rattle.std.proofs.Common.{lit≤};
ghost use Rattle.lists.specs.Lists.{flat_map};
ghost use Rattle.finders.specs.Search.{max_finders};
ghost use Rattle.finders.specs.Answer.{held_in, finders_table};
ghost use Rattle.candidates.specs.Candidates.{detections_table};
ghost use Rattle.listing_text.specs.Inner.{Adds, Wrote, spaced};
ghost use Rattle.listing_text.specs.Listing.{refused_line, head_line, finder_line, marker_fields, number_fields, detection_line, list_text, detections_in, single_room, double_room, head_room, finder_room, detection_room, listing_room};

use crate::pieces::Text;
use candidates::{Detection, Detections};
use finders::Finders;
use lcr_core::finder::Finder;
use lcr_core::point::Point;

const SPACE: u8 = b' ';

const LINE_FEED: u8 = b'\n';

// What a listing has a line for. No such line has more characters than `room`.
trait Listed {
    ghost line: { Self → List ℕ };

    ghost room: { ℕ };

    fn put(&self, text: &mut Text<'_>)
        requires { text.old.at < 2 ^ 29 }
        ensures { Adds (line self.now) room text.old text.new };

    ghost few: { room ≤ 200 };
}

impl Listed for Finder {
    ghost line = { finder_line };

    ghost room = { finder_room };

    ghost few = { lit≤ tt };

    fn put(&self, text: &mut Text<'_>) {
        text.single(self.x, SPACE);
        text.single(self.y, SPACE);
        text.single(self.module, SPACE);
        text.decimal(self.confirmations as u64, LINE_FEED);
    }
}

impl Listed for Detection {
    ghost line = { detection_line };

    ghost room = { detection_room };

    ghost few = { lit≤ tt };

    fn put(&self, text: &mut Text<'_>) {
        text.decimal(self.version.0 as u64, SPACE);
        text.marker(self.marker);
        text.numbers(self.transform.m);
        text.single(self.score, SPACE);
        text.single(self.mean, LINE_FEED);
    }
}

impl Text<'_> {
    // Width, height and counts.
    fn head(&mut self, width: u32, height: u32, finders: usize, detections: usize)
        requires { self.old.at < 2 ^ 30 }
        ensures { Adds (head_line width height finders detections) head_room self.old self.new }
    {
        self.decimal(width as u64, SPACE);
        self.decimal(height as u64, SPACE);
        self.decimal(finders as u64, SPACE);
        self.decimal(detections as u64, LINE_FEED);
    }

    fn marker(&mut self, m: Option<Point>)
        requires { self.old.at < 2 ^ 30 }
        ensures { Adds (spaced (marker_fields m)) (2 * single_room) self.old self.new }
    {
        match m {
            Some(p) => {
                self.single(p.x, SPACE);
                self.single(p.y, SPACE);
            }
            None => self.field(b"-", SPACE),
        }
    }

    // The eight numbers of a transform.
    fn numbers(&mut self, m: [f64; 8])
        requires { self.old.at < 2 ^ 30 }
        ensures { Adds (spaced (number_fields m)) (8 * double_room) self.old self.new }
    {
        for x in &m {
            self.double(*x, SPACE);
        }
    }

    // A line for each of these.
    fn lines<T: Listed>(&mut self, items: &[T])
        requires { (self.old.at < 2 ^ 20) × (length items.now ≤ max_finders) }
        ensures { Adds (flat_map T.line items.now) (T.room * length items.now) self.old self.new }
    {
        for item in items {
            item.put(self);
        }
    }
}

// `refused N`, at the front.
pub fn put_refusal(text: &mut [u8], number: u8) -> u32
    ensures text { Wrote (refused_line number) 0 text.old result text.new }
    ensures most { result ≤ head_room }
{
    let mut out = Text { text, at: 0 };
    out.field(b"refused", SPACE);
    out.decimal(number as u64, LINE_FEED);
    out.at
}

// The head line and a line for each finder and each detection, at the front.
pub fn put_list(
    text: &mut [u8],
    width: u32,
    height: u32,
    found: Finders,
    detected: Detections,
) -> u32
    ensures text { (fs : List Finder) (ds : List Detection) → found ≡ finders_table fs → detected ≡ detections_table ds → Wrote (list_text width height fs ds) 0 text.old result text.new }
    ensures most { result ≤ listing_room }
{
    let mut out = Text { text, at: 0 };
    out.head(width, height, found.count, detected.count);
    out.lines(found.as_slice());
    out.lines(detected.as_slice());
    out.at
}
