// A deck's records from a reader of bytes: what a record's arrival holds is what the reader gave, and why it ended is told;
// that a read failed is the reader's word alone.
// Of the system's own input, whose bytes nothing knows, that says no more than how many there are.
#![tactic(auto)]

ghost use Rattle.std.specs.Prelude.{◌≡◌, ◌<◌, Some, [], length, take, MatchResult, IfErr};
ghost use Rattle.std.specs.Io.KnownBytes.{Consumes, IsAtEnd};
ghost use Rattle.stream.specs.declared.Stop.TheVariants.{Ended};
ghost use Rattle.stream.specs.Arrival.{Reads, Fills, Arrives, bytes_of, stop_of};

mod records;

use decks::records::body_length;
pub use records::Record;
use std::io::Read;

// Why no more bytes came: the input ended, or a read failed.
#[derive(Clone, Copy, PartialEq, Eq)]
pub enum Stop {
    Ended,
    Failed,
}

// What came of a stretch that was cut short: how many bytes, and why no more.
#[derive(Clone, Copy)]
pub struct Short {
    pub count: usize,
    pub stop: Stop,
}

// What arrived of a deck: a record whole, a record cut short, or nothing more.
#[derive(Clone, Copy)]
pub enum Arrival {
    Whole(Record),
    Cut(Record, Stop),
    Nothing(Stop),
}

// One read. It brings nothing at the end of input, and nothing where it fails.
fn read_some<R: Read>(input: &mut R, part: &mut [u8]) -> Result<usize, Stop>
    ensures reads { Reads (length part.old) result }
    ensures bytes { MatchResult result
        (λ count. Consumes (R.remaining input.old) (R.remaining input.new) (take count part.new))
        (λ _. Consumes (R.remaining input.old) (R.remaining input.new) []) }
    ensures end { IfErr result (λ stop. stop ≡ Ended → 0 < length part.old → IsAtEnd (R.remaining input.new)) }
{
    match input.read(part) {
        Ok(0) => Err(Stop::Ended),
        Ok(count) => Ok(count),
        Err(_) => Err(Stop::Failed),
    }
}

// Reads until the body is full, the input ends or a read fails.
fn fill<R: Read>(input: &mut R, body: &mut [u8]) -> Result<(), Short>
    ensures fills { Fills (length body.old) result }
    ensures bytes { MatchResult result
        (λ _. Consumes (R.remaining input.old) (R.remaining input.new) body.new)
        (λ short. Consumes (R.remaining input.old) (R.remaining input.new) (take short.count body.new)) }
    ensures end { IfErr result (λ short. short.stop ≡ Ended → IsAtEnd (R.remaining input.new)) }
{
    let need = body.len();
    let mut count = 0;
    // a read says itself how far the count goes on
    while count < need {
        match read_some(input, &mut body[count..need]) {
            Ok(more) => count += more,
            Err(stop) => return Err(Short { count, stop }),
        }
    }
    Ok(())
}

// The next record: its kind, and as much of its body as arrives.
#[tactic(auto, using(decks::specs::StepLaws::body_low))]
pub fn next_record<R: Read>(input: &mut R) -> Arrival
    ensures arrives { Arrives result }
    ensures bytes { Consumes (R.remaining input.old) (R.remaining input.new) (bytes_of result) }
    ensures end { stop_of result ≡ Some Ended → IsAtEnd (R.remaining input.new) }
{
    let mut first = [0u8; 1];
    if let Err(short) = fill(input, &mut first) {
        return Arrival::Nothing(short.stop);
    }
    let kind = first[0];
    let mut body = [0u8; 7];
    let need = body_length(kind);
    match fill(input, &mut body[..need]) {
        Ok(()) => Arrival::Whole(Record {
            kind,
            body,
            count: need,
        }),
        Err(short) => {
            let count = short.count;
            Arrival::Cut(Record { kind, body, count }, short.stop)
        }
    }
}
