// The lines of a deck, each written into a buffer that holds it whole.
#![tactic(auto)]

pub mod text;

ghost use Rattle.std.specs.Prelude.{◌≤◌, ◌≡◌};
ghost use Rattle.lines.specs.Line.{line_text, line_room};

use crate::text::{write_line, write_read};
use arrayvec::ArrayString;

// What a deck prints in answer to a record, or at the end of input. A number here is one that is printed.
#[derive(Clone, Copy)]
pub enum Line<'a> {
    // end
    End,
    // deck number offset: the record at this offset is refused.
    Refused {
        number: u32,
        offset: u64,
    },
    // open 0 bound
    Opened {
        bound: u32,
    },
    // open number: the opening is refused.
    Unopened {
        number: u32,
    },
    // point a number
    Point {
        a: u32,
        number: u32,
    },
    // read 14 points: so many are still wanted.
    Wanted {
        points: u32,
    },
    // read 0 degree entries: the zero polynomial has no degree.
    Read {
        degree: Option<u32>,
        entries: &'a [u32],
    },
}

impl Line<'_> {
    // The line, in place of what the buffer held. Not a `Display`: that promises its text only where it answers Ok, and this
    // cannot fail.
    pub fn write<const CAP: usize>(&self, out: &mut ArrayString<CAP>)
        requires { line_room self.now ≤ CAP }
        ensures { out.new.bytes ≡ line_text self.now }
    {
        match *self {
            Line::End => write_line("end", &[], out),
            Line::Refused { number, offset } => write_line(
                "deck",
                &[u64::from(number), offset],
                out,
            ),
            Line::Opened { bound } => write_line("open", &[0, u64::from(bound)], out),
            Line::Unopened { number } => write_line("open", &[u64::from(number)], out),
            Line::Point { a, number } => write_line(
                "point",
                &[u64::from(a), u64::from(number)],
                out,
            ),
            Line::Wanted { points } => write_line("read", &[14, u64::from(points)], out),
            Line::Read { degree, entries } => write_read(degree, entries, out),
        }
    }
}
