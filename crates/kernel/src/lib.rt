// The kernel's public calls. None has a `requires`: every input gets its number, and a refused call changes nothing.
// What each answers and leaves behind is a definition of the crates scope and job; the records named in the contracts
// gather it (specs/Results.antt).
#![tactic(auto)]

ghost use Rattle.std.specs.Prelude.{◌≡◌};
ghost use Rattle.checks.specs.Outcome.{number_of};
ghost use Rattle.kernel.specs.Results.{RowResult, PlainResult, DivisionResult, DivisorResult, OpenResult, OfferResult, LotResult, ReadResult, ShotResult};

use checks::{Given, Refusal};
use job::{Job, JobAnswer, ReadAnswer};
use offers::SoundJob;
use plain::Rows;

// The answers are records of numbers, since C sees them.
// value: the resultant. steps: the coefficient steps of the remainder sequence.
#[repr(C)]
#[derive(Clone, Copy)]
pub struct RowAnswer {
    pub number: u32,
    pub value: u32,
    pub steps: u32,
}

#[repr(C)]
#[derive(Clone, Copy)]
pub struct PlainAnswer {
    pub number: u32,
    pub value: u32,
}

// count: the coefficient steps of the division.
#[repr(C)]
#[derive(Clone, Copy)]
pub struct DivisionAnswer {
    pub number: u32,
    pub count: u32,
}

// The resultant of two rows, by the monic remainder sequence.
#[tactic(auto, using(crate::specs::RowLaws::row_laws))]
pub fn row_resultant(p: u32, a: &[u32], b: &[u32]) -> RowAnswer
    ensures { RowResult p a.now b.now result }
{
    match checks::row(p, a, b) {
        Ok(modulus) => {
            let found = rows::resultant(modulus, a, b);
            RowAnswer {
                number: 0,
                value: found.value,
                steps: found.steps,
            }
        }
        Err(refusal) => RowAnswer {
            number: refusal.number(),
            value: 0,
            steps: 0,
        },
    }
}

// The same resultant for m + n <= 6, by expansion along rows.
#[tactic(auto, using(crate::specs::RowLaws::row_laws))]
pub fn plain_determinant(p: u32, a: &[u32], b: &[u32]) -> PlainAnswer
    ensures { PlainResult p a.now b.now result }
{
    match checks::plain(p, a, b) {
        Ok(modulus) => PlainAnswer {
            number: 0,
            value: plain::plain(modulus, Rows { a, b }),
        },
        Err(refusal) => PlainAnswer {
            number: refusal.number(),
            value: 0,
        },
    }
}

// Division in the work row: remainder and quotient take the dividend's place.
#[tactic(auto, using(crate::specs::RowLaws::row_laws))]
pub fn divide(p: u32, row: &mut [u32], b: &[u32]) -> DivisionAnswer
    ensures { DivisionResult p row.old b.now result row.new }
{
    match checks::division(p, row, b) {
        Ok(modulus) => DivisionAnswer {
            number: 0,
            count: rows::divide(modulus, row, b),
        },
        Err(refusal) => DivisionAnswer {
            number: refusal.number(),
            count: 0,
        },
    }
}

// Which row divides: the stretch of the caller's own row, of lower true degree, cut after its last nonzero entry.
pub fn divisor<'a>(a: &'a [u32], b: &'a [u32]) -> &'a [u32]
    ensures { DivisorResult a.entry b.entry result }
{
    rows::divisor(a, b)
}

// Opens a job on A of degrees m in x and e in y, and B of degrees n and f; the strict opening, worked out in the answer's
// record. Its parameters, and those of `one_shot`, are those of the scope, as C has them.
pub fn open(p: u32, m: u32, e: u32, n: u32, f: u32, a: &[u32], b: &[u32]) -> JobAnswer
    ensures { OpenResult p m e n f a.now b.now result }
{
    let a = Given { m, e, entries: a };
    let b = Given {
        m: n,
        e: f,
        entries: b,
    };
    let mut answer = JobAnswer {
        number: 0,
        job: Job::default(),
    };
    if let Err(refusal) = opening::strict_in(p, a, b, &mut answer.job) {
        answer.number = refusal.number();
    }
    answer
}

// Offers one point.
pub fn offer(j: Job, a: u32) -> JobAnswer
    ensures { OfferResult j a result }
{
    match sounding::sound(j) {
        Ok(mut job) => {
            let number = offers::answer(job.offer(a));
            JobAnswer {
                number,
                job: job.job,
            }
        }
        Err(refusal) => refused(refusal, j),
    }
}

// Offers points from left to right, and writes one answer byte for each.
pub fn lot(j: Job, points: &[u32], answers: &mut [u8]) -> JobAnswer
    ensures { LotResult j points.now answers.old result answers.new }
{
    match sounding::sound(j) {
        Ok(_) if answers.len() < points.len() => refused(Refusal::Room, j),
        Ok(mut job) => {
            job.lot(points, answers);
            JobAnswer {
                number: 0,
                job: job.job,
            }
        }
        Err(refusal) => refused(refusal, j),
    }
}

// Reads the determinant's coefficients, lowest power of y first. The record is tested where it stands: a read hands no job
// back, and `sounding::sound` would copy it.
pub fn read(j: Job, out: &mut [u32]) -> ReadAnswer
    ensures { ReadResult j out.old result out.new }
{
    if !sounding::is_sound(&j) {
        return reads::answer(Err(Refusal::Unsound));
    }
    reads::answer(reads::read(&SoundJob { job: j }, out))
}

// Opening, the smallest points that suffice, and the read.
pub fn one_shot(
    p: u32,
    m: u32,
    e: u32,
    n: u32,
    f: u32,
    a: &[u32],
    b: &[u32],
    out: &mut [u32],
) -> ReadAnswer
    ensures { ShotResult p m e n f a.now b.now out.old result out.new }
{
    let a = Given { m, e, entries: a };
    let b = Given {
        m: n,
        e: f,
        entries: b,
    };
    reads::answer(reads::one_shot(p, a, b, out))
}

// A refusal, with the job that it hands back; not a `From`, since neither type is this crate's.
fn refused(refusal: Refusal, job: Job) -> JobAnswer
    ensures { result ≡ record { number = number_of refusal; job = job } }
{
    JobAnswer {
        number: refusal.number(),
        job,
    }
}
