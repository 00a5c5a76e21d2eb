// The records of a deck that need no job: what refuses one, and the state after it.
#![tactic(auto, unfolding(crate::specs::Deck::known, crate::specs::Deck::body_length, crate::specs::Deck::byte, crate::specs::Deck::number4, crate::specs::Deck::in_order, crate::specs::Deck::astray, crate::specs::Deck::with_modulus, crate::specs::Deck::with_degrees, crate::specs::Deck::with_place, crate::specs::Deck::fresh, crate::specs::Refusal::steep, scope::specs::Number::too_high, scope::specs::Pair::place))]

ghost use Rattle.std.specs.Prelude.{◌+◌, ◌*◌, ◌<◌, ◌≡◌, length};
ghost use Rattle.decks.specs.Deck.{body_length, byte, number4 as Deck·number4, in_order, astray as Deck·astray, with_modulus, with_degrees, with_place, fresh};
ghost use Rattle.decks.specs.Refusal.{steep};
ghost use Rattle.decks.specs.Kind.{kind_number, refusal_number, Names, Sides, Admits};

use crate::{Deck, Stage};
use job::Job;

// What a record is.
#[derive(Clone, Copy, PartialEq, Eq)]
pub enum Kind {
    Modulus,
    Degrees,
    Place,
    Open,
    Point,
    Read,
}

// Why a record is refused.
#[derive(Clone, Copy, PartialEq, Eq)]
pub enum Refusal {
    // No such kind.
    Unknown,
    // The body is cut off.
    Cut,
    // Out of order.
    Disorder,
    // A degree above 16.
    Steep,
    // A side or a place outside the shape.
    Astray,
}

// The side of a place: the polynomial that it is of.
#[derive(Clone, Copy)]
enum Side {
    A,
    B,
}

// The kind with this number, or that there is none.
impl TryFrom<u8> for Kind {
    type Error = Refusal;

    ghost try_from_gives = { Names };

    fn try_from(number: u8) -> Result<Kind, Refusal> {
        match number {
            1 => Ok(Kind::Modulus),
            2 => Ok(Kind::Degrees),
            3 => Ok(Kind::Place),
            4 => Ok(Kind::Open),
            5 => Ok(Kind::Point),
            6 => Ok(Kind::Read),
            _ => Err(Refusal::Unknown),
        }
    }
}

impl Kind {
    // How many bytes the body of a record has.
    fn body_length(self) -> usize
        ensures { result ≡ body_length (kind_number self) }
    {
        match self {
            Kind::Modulus | Kind::Degrees | Kind::Point => 4,
            Kind::Place => 7,
            Kind::Open | Kind::Read => 0,
        }
    }
}

impl Refusal {
    // The number that a refused record prints; the function is named as in `checks`.
    pub fn number(self) -> u32
        ensures { result ≡ refusal_number self }
    {
        match self {
            Refusal::Unknown => 21,
            Refusal::Cut => 22,
            Refusal::Disorder => 23,
            Refusal::Steep => 4,
            Refusal::Astray => 24,
        }
    }
}

// The side with this number, or that it is outside the shape.
impl TryFrom<u8> for Side {
    type Error = Refusal;

    ghost try_from_gives = { Sides };

    fn try_from(number: u8) -> Result<Side, Refusal> {
        match number {
            0 => Ok(Side::A),
            1 => Ok(Side::B),
            _ => Err(Refusal::Astray),
        }
    }
}

impl Stage {
    // A record of this kind may stand here.
    pub fn admits(self, kind: Kind) -> bool
        ensures { result ≡ in_order self (kind_number kind) }
    {
        match self {
            Stage::NoModulus => kind == Kind::Modulus,
            Stage::NoDegrees => kind == Kind::Degrees,
            Stage::Unopened => kind == Kind::Place || kind == Kind::Open,
            Stage::Opened => kind == Kind::Point || kind == Kind::Read,
        }
    }
}

// How many bytes the body of a record has: none where there is no such kind.
pub fn body_length(kind: u8) -> usize
    ensures { result ≡ body_length kind }
{
    match Kind::try_from(kind) {
        Ok(kind) => kind.body_length(),
        Err(_) => 0,
    }
}

// The little-endian number in four bytes, from a place on as in the definition.
pub fn number4(body: &[u8], at: usize) -> u32
    requires { at + 3 < length body.now }
    ensures { result ≡ Deck·number4 body.now at }
{
    u32::from_le_bytes([body[at], body[at + 1], body[at + 2], body[at + 3]])
}

// A degree above 16 among the four of a body. How long a body is at least stands in clauses: `admit` tests it, by its kind.
fn too_high(body: &[u8]) -> bool
    requires { 3 < length body.now }
    ensures { result ≡ steep body.now }
{
    body[0] > 16 || body[1] > 16 || body[2] > 16 || body[3] > 16
}

impl Deck {
    // The state before the first record.
    pub fn new() -> Deck
        ensures { result ≡ fresh }
    {
        Deck {
            stage: Stage::NoModulus,
            p: 0,
            m: 0,
            e: 0,
            n: 0,
            f: 0,
            a: [0; 289],
            b: [0; 289],
            job: Job::default(),
        }
    }

    // The kind of a record of which `body` arrived, or why it is refused. `kind` is the byte that arrived.
    pub fn admit(&self, kind: u8, body: &[u8]) -> Result<Kind, Refusal>
        ensures { Admits self.now kind body.now result }
    {
        let known = Kind::try_from(kind)?;
        if body.len() < known.body_length() {
            return Err(Refusal::Cut);
        }
        if !self.stage.admits(known) {
            return Err(Refusal::Disorder);
        }
        match known {
            Kind::Degrees => {
                if too_high(body) {
                    return Err(Refusal::Steep);
                }
            }
            Kind::Place => {
                if self.astray(body) {
                    return Err(Refusal::Astray);
                }
            }
            _ => {}
        }
        Ok(known)
    }

    // A side or a place outside the shape.
    fn astray(&self, body: &[u8]) -> bool
        requires { 2 < length body.now }
        ensures { result ≡ Deck·astray self.now body.now }
    {
        let i = u32::from(body[1]);
        let j = u32::from(body[2]);
        match Side::try_from(body[0]) {
            Ok(Side::A) => i > self.m || j > self.e,
            Ok(Side::B) => i > self.n || j > self.f,
            Err(_) => true,
        }
    }

    // Takes a record of kind 1.
    pub fn set_modulus(&mut self, body: &[u8])
        requires { 3 < length body.now }
        ensures { self.new ≡ with_modulus self.old body.now }
    {
        self.stage = Stage::NoDegrees;
        self.p = number4(body, 0);
    }

    // Takes a record of kind 2.
    pub fn set_degrees(&mut self, body: &[u8])
        requires { 3 < length body.now }
        ensures { self.new ≡ with_degrees self.old body.now }
    {
        self.stage = Stage::Unopened;
        self.m = u32::from(body[0]);
        self.e = u32::from(body[1]);
        self.n = u32::from(body[2]);
        self.f = u32::from(body[3]);
    }

    // Takes a record of kind 3, whose place is within the tables.
    pub fn set_place(&mut self, body: &[u8])
        requires whole { 6 < length body.now }
        requires inside { byte body.now 1 * 17 + byte body.now 2 < 289 }
        ensures { self.new ≡ with_place self.old body.now }
    {
        let at = usize::from(body[1]) * 17 + usize::from(body[2]);
        let value = number4(body, 3);
        match Side::try_from(body[0]) {
            Ok(Side::A) => self.a[at] = value,
            _ => self.b[at] = value,
        }
    }
}
