// One record of a deck: the state after it, the line that it prints, and whether the run stops.
// The job in a state comes from an opening and offers alone, so no call here checks it again.
ghost use Rattle.std.specs.Prelude.{◌≤◌, ◌≡◌, []};
ghost use Rattle.decks.specs.declared.Stage.TheVariants.{Opened};
ghost use Rattle.decks.specs.Deck.{deck_number, fresh, point_line, read_line, with_job};
ghost use Rattle.decks.specs.Stepped.{stepped};
ghost use Rattle.decks.specs.Kind.{kind_number};
ghost use Rattle.decks.specs.State.{Fit};
ghost use Rattle.decks.specs.Step.{settled, Opens, Steps};
ghost use Rattle.job.specs.Calls.{offered};
ghost use Rattle.residue.specs.PrimeLaws.{Prime-prop};
ghost use Rattle.std.proofs.Props.{props};

use crate::records::{Kind, number4};
use crate::{Deck, Stage};
use arrayvec::ArrayString;
use checks::{Given, Refusal};
use lines::Line;
use offers::SoundJob;

// A state that a run may come to: its tables are those of its degrees, and an open job is sound.
#[derive(Clone, Copy)]
pub struct FitDeck {
    pub state: Deck,
    pub ghost fit: { Fit state } by { Prim.hlevel (props, Prime-prop) },
}

impl FitDeck {
    // The state before the first record.
    pub fn new() -> FitDeck
        ensures { result.state ≡ fresh }
    {
        FitDeck { state: Deck::new() }
    }

    // The record of this kind whose kind byte is at `offset`, and of whose body `body` arrived: its line, in place of what the
    // buffer held, and whether the run stops after it. The kind is the byte that arrived and may be no kind; kind and body may
    // come from any reader, so they are no record of `stream`; and how large the buffer is, 5707 bytes at least, is the caller's.
    pub fn step<const CAP: usize>(
        &mut self,
        kind: u8,
        body: &[u8],
        offset: u64,
        line: &mut ArrayString<CAP>,
    ) -> bool
        requires { 5707 ≤ CAP }
        ensures { Steps (stepped self.old.state kind body.now offset) self.new.state result line.new.bytes }
    {
        match self.state.admit(kind, body) {
            Ok(kind) => self.settle(kind, body, line),
            Err(refusal) => {
                let number = refusal.number();
                Line::Refused { number, offset }.write(line);
                true
            }
        }
    }

    // A record that is not refused.
    fn settle<const CAP: usize>(
        &mut self,
        kind: Kind,
        body: &[u8],
        line: &mut ArrayString<CAP>,
    ) -> bool
        requires admitted { deck_number self.old.state (kind_number kind) body.now ≡ 0 }
        requires room { 5707 ≤ CAP }
        ensures { Steps (settled self.old.state (kind_number kind) body.now) self.new.state result line.new.bytes }
    {
        line.clear();
        match kind {
            Kind::Modulus => {
                self.state.set_modulus(body);
                false
            }
            Kind::Degrees => {
                self.state.set_degrees(body);
                false
            }
            Kind::Place => {
                self.state.set_place(body);
                false
            }
            Kind::Open => self.open(line),
            Kind::Point => {
                self.offer(number4(body, 0), line);
                false
            }
            Kind::Read => {
                self.read(line);
                false
            }
        }
    }

    // Opens the tables. A refused opening stops the run.
    fn open<const CAP: usize>(&mut self, line: &mut ArrayString<CAP>) -> bool
        requires { 64 ≤ CAP }
        ensures { Steps (settled self.old.state 4 []) self.new.state result line.new.bytes }
    {
        match self.opened() {
            Ok(job) => {
                let bound = job.needed() - 1;
                Line::Opened { bound }.write(line);
                self.state.stage = Stage::Opened;
                self.state.job = job.job;
                false
            }
            Err(refusal) => {
                let number = refusal.number();
                Line::Unopened { number }.write(line);
                true
            }
        }
    }

    // The sound job of the tables, which are laid out for degree 16 in y, or what refuses them.
    fn opened(&self) -> Result<SoundJob, Refusal>
        ensures { Opens self.now.state result }
    {
        let d = &self.state;
        let a = Given {
            m: d.m,
            e: 16,
            entries: &d.a[..((d.m + 1) * 17) as usize],
        };
        let b = Given {
            m: d.n,
            e: 16,
            entries: &d.b[..((d.n + 1) * 17) as usize],
        };
        opening::strict(d.p, a, b)
    }

    // The open job. That one is open stays a clause, here and where this is called: the test of a record tells the stage, and a
    // state of the definition's record has no type of its own for it.
    fn job(&self) -> SoundJob
        requires { self.now.state.stage ≡ Opened }
        ensures { result.job ≡ self.now.state.job }
    {
        SoundJob {
            job: self.state.job,
        }
    }

    // Offers a point to the open job.
    fn offer<const CAP: usize>(&mut self, a: u32, line: &mut ArrayString<CAP>)
        requires stage { self.old.state.stage ≡ Opened }
        requires room { 64 ≤ CAP }
        ensures state { self.new.state ≡ with_job self.old.state self.old.state.stage (offered self.old.state.job a) }
        ensures line { line.new.bytes ≡ point_line self.old.state.job a }
    {
        let mut job = self.job();
        let number = offers::answer(job.offer(a));
        Line::Point { a, number }.write(line);
        self.state.job = job.job;
    }

    // Reads the open job.
    fn read<const CAP: usize>(&self, line: &mut ArrayString<CAP>)
        requires stage { self.now.state.stage ≡ Opened }
        requires room { 5707 ≤ CAP }
        ensures { line.new.bytes ≡ read_line self.now.state.job }
    {
        let job = self.job();
        let mut entries = [0u32; 513];
        match reads::read(&job, &mut entries) {
            Ok(degree) => {
                let entries = &entries[..job.needed() as usize];
                Line::Read { degree, entries }.write(line);
            }
            Err(refusal) => {
                let points = refusal.wanted();
                Line::Wanted { points }.write(line);
            }
        }
    }
}
