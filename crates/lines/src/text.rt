// The text of a line, word and number after one another.
ghost use Rattle.std.specs.Prelude.{◌+◌, ◌*◌, ◌<◌, ◌≤◌, ◌≡◌, ◌∷◌, ◌++◌, length};
ghost use Rattle.arrayvec.specs.ArrayString.{array_string_len};
ghost use Rattle.lines.specs.Text.{decimal, line};
ghost use Rattle.lines.specs.Line.{degree_text, read_text};

use arrayvec::ArrayString;
use itoa::Buffer;

// The decimal digits of a number.
pub fn push_number<const CAP: usize>(n: u64, out: &mut ArrayString<CAP>)
    requires { array_string_len out.old + length (decimal n) ≤ CAP }
    ensures { out.new.bytes ≡ out.old.bytes ++ decimal n }
{
    let mut digits = Buffer::new();
    out.push_str(digits.format(n));
}

// A space and a number.
pub fn push_spaced<const CAP: usize>(n: u64, out: &mut ArrayString<CAP>)
    requires { array_string_len out.old + length (decimal n) < CAP }
    ensures { out.new.bytes ≡ out.old.bytes ++ 32 ∷ decimal n }
{
    out.push(' ');
    push_number(n, out);
}

// The degree, or a dash for the zero polynomial.
fn push_degree<const CAP: usize>(degree: Option<u32>, out: &mut ArrayString<CAP>)
    requires { array_string_len out.old + 10 ≤ CAP }
    ensures text { out.new.bytes ≡ out.old.bytes ++ degree_text degree }
    ensures short { array_string_len out.new ≤ array_string_len out.old + 10 }
{
    match degree {
        Some(degree) => push_number(u64::from(degree), out),
        None => out.push('-'),
    }
}

// A word, and numbers each after a space, of 20 digits at most.
pub(crate) fn write_line<const CAP: usize>(word: &str, numbers: &[u64], out: &mut ArrayString<CAP>)
    requires { length word.now + 21 * length numbers.now < CAP }
    ensures { out.new.bytes ≡ line word.now numbers.now }
{
    out.clear();
    out.push_str(word);
    for n in numbers {
        push_spaced(*n, out);
    }
    out.push('\n');
}

// The line of a read that is done: an entry has 10 digits at most.
pub(crate) fn write_read<const CAP: usize>(
    degree: Option<u32>,
    entries: &[u32],
    out: &mut ArrayString<CAP>,
)
    requires { 18 + 11 * length entries.now ≤ CAP }
    ensures { out.new.bytes ≡ read_text degree entries.now }
{
    out.clear();
    out.push_str("read 0 ");
    push_degree(degree, out);
    for c in entries {
        push_spaced(u64::from(*c), out);
    }
    out.push('\n');
}
