// Reads: the determinant out of a sound job that has all its points; and the one-shot, which opens a job, fills it and
// reads it.
#![tactic(auto)]

ghost use Rattle.std.specs.Prelude.{◌≡◌};
ghost use Rattle.scope.specs.Point.{smallest};
ghost use Rattle.job.specs.Job.{pair_of};
ghost use Rattle.job.specs.Calls.{lotted};
ghost use Rattle.reads.specs.Answered.{answered};
ghost use Rattle.reads.specs.Read.{ReadSound};
ghost use Rattle.reads.specs.Shot.{Shot};

use checks::{Given, Refusal};
use job::ReadAnswer;
use offers::SoundJob;

// What a read answers: the degree is None where the polynomial is zero. Not a `From`, since neither the library's Result nor
// the answer is this crate's.
pub fn answer(outcome: Result<Option<u32>, Refusal>) -> ReadAnswer
    ensures { result ≡ answered outcome }
{
    match outcome {
        Ok(degree) => ReadAnswer {
            number: 0,
            wanted: 0,
            degree: degree.unwrap_or(0),
            zero: u32::from(degree.is_none()),
        },
        Err(refusal) => ReadAnswer {
            number: refusal.number(),
            wanted: refusal.wanted(),
            degree: 0,
            zero: 0,
        },
    }
}

// A read: refused while points are wanted and where the output is short, else the determinant's coefficients, lowest
// first, and its degree; None where it is zero
pub fn read(j: &SoundJob, out: &mut [u32]) -> Result<Option<u32>, Refusal>
    ensures { ReadSound j.now.job out.old (answered result) out.new }
{
    let needed = j.needed();
    if j.job.count < needed {
        return Err(Refusal::Wanted(needed - j.job.count));
    }
    let room = needed as usize;
    if out.len() < room {
        return Err(Refusal::Room);
    }
    let coefficients = &mut out[..room];
    j.interpolate(coefficients);
    Ok(points::degree(coefficients).map(|d| d as u32))
}

// A fresh job offered the points 0, 1, 2, .. until it has all it needs: it keeps the smallest that suffice
fn filled(fresh: SoundJob) -> SoundJob
    requires { fresh.job.count ≡ 0 }
    ensures { result.job ≡ lotted fresh.job (smallest (pair_of fresh.job)) }
{
    let needed = fresh.needed();
    let mut j = fresh;
    for a in 0..j.job.p {
        if j.job.count == needed {
            return j;
        }
        let _ = j.offer(a);
    }
    j
}

// The one-shot: the opening, the smallest points that suffice, and the read
pub fn one_shot(p: u32, a: Given, b: Given, out: &mut [u32]) -> Result<Option<u32>, Refusal>
    ensures { Shot p a.entry.m a.entry.e b.entry.m b.entry.e a.entry.entries.now b.entry.entries.now out.old (answered result) out.new }
{
    let fresh = opening::strict(p, a, b)?;
    if out.len() < fresh.needed() as usize {
        return Err(Refusal::Room);
    }
    read(&filled(fresh), out)
}
