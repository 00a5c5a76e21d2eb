// The deck: records from standard input, a line for each answer to standard output.
#![tactic(auto)]

ghost use Rattle.std.specs.Prelude.{◌+◌, ◌^◌, ◌<◌, Some, ◌≡◌};
ghost use Rattle.decks.specs.Deck.{body_length, fresh};
ghost use Rattle.decks.specs.Stepped.{stepped};
ghost use Rattle.decks.specs.Step.{Steps};
ghost use Rattle.stream.specs.Arrival.{Arrives, body_of};
ghost use Rattle.deck.specs.Run.{message, Takes, Turned, Played};

use arrayvec::ArrayString;
use decks::Deck;
use decks::records::body_length;
use decks::steps::FitDeck;
use lines::Line;
use std::io::{Read, Write};
use std::{fmt, io};
use stream::{Arrival, Record, Stop, next_record};

// A record takes 8 bytes at most, so that with these turns no offset wraps. No run that a machine can finish spends them.
const TURNS: u64 = u64::MAX / 8;

// The text of a line: none is longer.
type Text = ArrayString<5707>;

// What cuts a run short: a failed read, a failed write, or all its turns spent.
#[derive(Clone, Copy)]
enum Failure {
    Read,
    Write,
    Records,
}

impl fmt::Display for Failure {
    ghost output = { λ failure. Some (message failure) };

    fn fmt<W: fmt::Write>(&self, f: &mut fmt::Formatter<W>) -> fmt::Result {
        match self {
            Failure::Read => f.write_str("deck: reading failed"),
            Failure::Write => f.write_str("deck: writing failed"),
            Failure::Records => f.write_str("deck: too many records"),
        }
    }
}

// Where a run stands: the state, and the place of the next record. That 8 bytes more do not wrap the place stays a clause: the
// place grows with each turn, and only the number of turns bounds it.
#[derive(Clone, Copy)]
struct Run {
    deck: FitDeck,
    offset: u64,
}

// Where a run ended: the state that it left, and what cut it short.
#[derive(Clone, Copy)]
struct Ending {
    state: Deck,
    result: Result<(), Failure>,
}

impl Run {
    // The run before the first record.
    fn new() -> Run
        ensures { (result.deck.state ≡ fresh) × (result.offset ≡ 0) }
    {
        Run {
            deck: FitDeck::new(),
            offset: 0,
        }
    }

    // A record, or what arrived of it before the input ended: its line, and whether the run stops after it.
    fn step(&mut self, part: &Record, line: &mut Text) -> bool
        requires { self.old.offset + 8 < 2 ^ 64 }
        ensures steps { Steps (stepped self.old.deck.state part.now.kind (body_of part.now) self.old.offset)
            self.new.deck.state result line.new.bytes }
        ensures offset { self.new.offset ≡ self.old.offset + (1 + body_length part.now.kind) }
    {
        let stops = self.deck.step(part.kind, part.arrived(), self.offset, line);
        self.offset += 1 + body_length(part.kind) as u64;
        stops
    }

    // What arrived, taken: its line, and whether the run stops after it. A failed read is told, and changes nothing, not
    // even the line.
    fn take(&mut self, arrival: &Arrival, line: &mut Text) -> Result<bool, Failure>
        requires arrives { Arrives arrival.now }
        requires offset { self.old.offset + 8 < 2 ^ 64 }
        ensures { Takes self.old arrival.now self.new line.old.bytes line.new.bytes result }
    {
        match arrival {
            Arrival::Whole(record) => Ok(self.step(record, line)),
            Arrival::Cut(record, Stop::Ended) => Ok(self.step(record, line)),
            Arrival::Nothing(Stop::Ended) => {
                Line::End.write(line);
                Ok(true)
            }
            Arrival::Cut(_, Stop::Failed) => Err(Failure::Read),
            Arrival::Nothing(Stop::Failed) => Err(Failure::Read),
        }
    }

    // The next record, or the end of input: read, taken, and its line printed. Whether the run stops after it.
    fn turn<R: Read, W: Write>(
        &mut self,
        input: &mut R,
        output: &mut W,
        line: &mut Text,
    ) -> Result<bool, Failure>
        requires { self.old.offset + 8 < 2 ^ 64 }
        ensures { Turned self.old (R.remaining input.old) (R.remaining input.new) (W.contents output.old) (W.contents output.new)
            self.new line.old.bytes line.new.bytes result }
    {
        let arrival = next_record(input);
        let stops = self.take(&arrival, line)?;
        match output.write_all(line.as_bytes()) {
            Ok(()) => Ok(stops),
            Err(_) => Err(Failure::Write),
        }
    }

    // Turn after turn, until the run stops.
    fn finish<R: Read, W: Write>(&mut self, input: &mut R, output: &mut W) -> Result<(), Failure>
        requires { (self.old.deck.state ≡ fresh) × (self.old.offset ≡ 0) }
        ensures { Played (R.remaining input.old) (R.remaining input.new) (W.contents output.old) (W.contents output.new)
            (record { state = self.new.deck.state; result = result }) }
    {
        let mut line = ArrayString::new();
        for _turn in 0..TURNS {
            if self.turn(input, output, &mut line)? {
                return Ok(());
            }
        }
        Err(Failure::Records)
    }
}

// A whole run.
fn play<R: Read, W: Write>(input: &mut R, output: &mut W) -> Ending
    ensures { Played (R.remaining input.old) (R.remaining input.new) (W.contents output.old) (W.contents output.new) result }
{
    let mut run = Run::new();
    let result = run.finish(input, output);
    Ending {
        state: run.deck.state,
        result,
    }
}

// What cut a run short goes to standard error.
fn main(rt: HostRuntime) {
    let ending = play(&mut rt.reader(), &mut io::writer(&rt));
    if let Err(failure) = ending.result {
        let _ = rt.eprintln(failure);
    }
}
