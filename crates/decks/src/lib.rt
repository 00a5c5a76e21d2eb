// The deck reader: the state it goes through, one record at a time.
#![tactic(auto)]

use job::Job;

pub mod records;
pub mod steps;

// How far a deck has come.
#[derive(Clone, Copy)]
pub enum Stage {
    NoModulus,
    NoDegrees,
    Unopened,
    Opened,
}

// The degrees and the table of A are m, e and `a`, those of B n, f and `b`, as the definition names them. The coefficient of
// x^i y^j of A stands at 17 i + j of `a`, and so for B.
#[derive(Clone, Copy)]
pub struct Deck {
    pub stage: Stage,
    pub p: u32,
    pub m: u32,
    pub e: u32,
    pub n: u32,
    pub f: u32,
    pub a: [u32; 289],
    pub b: [u32; 289],
    // beside the stage, since the state of the definition holds a job from the start
    pub job: Job,
}
