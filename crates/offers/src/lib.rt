// Offers to a sound job: the number of a point, a single offer and a lot.
// Whoever makes such a job has tested its record, or has it from an opening; so nothing here tests it again.
#![tactic(auto)]

ghost use Rattle.std.specs.Prelude.{◌≡◌, true, ◌≤◌, ◌++◌, length, drop};
ghost use Rattle.residue.specs.Residue.{val};
ghost use Rattle.scope.specs.Point.{tabulate, needed};
ghost use Rattle.scope.specs.Number.{point_number};
ghost use Rattle.checks.specs.Outcome.{outcome};
ghost use Rattle.job.specs.Job.{pair_of, kept_points};
ghost use Rattle.job.specs.Calls;
ghost use Rattle.job.specs.Sound.{sound?};
ghost use Rattle.offers.specs.Answer.{answer_of};
ghost use Rattle.offers.specs.Lent.{IsOpened, IsPairOf};

use checks::Refusal;
use field::Modulus;
use job::Job;
use points::{Pair, Table};

// What an offer that is not refused did
#[derive(Clone, Copy, PartialEq, Eq)]
pub enum Offer {
    Kept,
    Surplus,
}

// The number that an offer answers; not a `From`, since neither the library's Result nor the number is this crate's
pub fn answer(outcome: Result<Offer, Refusal>) -> u32
    ensures { result ≡ answer_of outcome }
{
    match outcome {
        Ok(Offer::Kept) => 0,
        Ok(Offer::Surplus) => 1,
        Err(refusal) => refusal.number(),
    }
}

// The two polynomials of a record, where they stand in it
pub fn lend(j: &Job) -> Pair<'_>
    requires { IsOpened j.now }
    ensures { IsPairOf j.now result }
{
    Pair {
        p: Modulus { value: j.p },
        a: Table {
            entries: &j.a,
            m: j.m as usize,
            d: j.da as usize,
        },
        b: Table {
            entries: &j.b,
            m: j.n as usize,
            d: j.db as usize,
        },
    }
}

// A job that some accepted opening and some offers leave
#[derive(Clone, Copy)]
pub struct SoundJob {
    pub job: Job,
    pub ghost sound: { sound? job ≡ true },
}

impl SoundJob {
    // Its two polynomials
    fn pair(&self) -> Pair<'_>
        ensures { IsPairOf self.now.job result }
    {
        lend(&self.job)
    }

    // How many points are needed: D + 1
    pub fn needed(&self) -> u32
        ensures { result ≡ needed (pair_of self.now.job) }
    {
        self.pair().needed() as u32
    }

    // The points kept
    #[tactic(auto, using(crate::proofs::Record::room), unfolding(job::specs::Job::kept_points))]
    fn points(&self) -> &[u32]
        ensures { result.now ≡ kept_points self.now.job }
    {
        &self.job.points[..self.job.count as usize]
    }

    // Whether a point would be kept while points are wanted: 10, 12 and 11 refuse it
    #[tactic(auto, using(crate::proofs::Points::admitting))]
    pub fn admit(&self, a: u32) -> Result<(), Refusal>
        ensures { outcome result ≡ point_number (pair_of self.now.job) (kept_points self.now.job) a }
    {
        if self.job.p <= a {
            return Err(Refusal::Point);
        }
        if self.points().contains(&a) {
            return Err(Refusal::Repeated);
        }
        if !self.pair().usable(a) {
            return Err(Refusal::Unusable);
        }
        Ok(())
    }

    // The coefficients of the polynomial through the kept pairs, lowest first
    #[tactic(auto, using(crate::proofs::Record::room))]
    pub fn interpolate(&self, out: &mut [u32])
        requires full { self.now.job.count ≡ needed (pair_of self.now.job) }
        requires room { length out.old ≡ self.now.job.count }
        ensures { out.new ≡ tabulate self.now.job.count (λ k. val self.now.job.p (Calls.interpolant self.now.job k)) }
    {
        let count = self.job.count as usize;
        points::interpolate(self.pair().p, self.points(), &self.job.values[..count], out);
    }

    // Whether that polynomial takes the value at a that would be kept there
    #[tactic(auto, using(crate::proofs::Record::room))]
    pub fn agrees(&self, a: u32) -> bool
        requires { self.now.job.count ≡ needed (pair_of self.now.job) }
        ensures { result ≡ Calls.agrees self.now.job a }
    {
        let mut table = [0u32; 513];
        let coefficients = &mut table[..self.job.count as usize];
        self.interpolate(coefficients);
        points::value_at(self.job.p, coefficients, a) == self.pair().kept(a)
    }

    // A single offer: a usable new point is kept with its value while points are wanted
    #[tactic(auto, using(crate::proofs::Numbers::offering), unfolding(job::specs::Job::stored))]
    pub fn offer(&mut self, a: u32) -> Result<Offer, Refusal>
        ensures number { answer_of result ≡ Calls.offer_number self.old.job a }
        ensures job { self.new.job ≡ Calls.offered self.old.job a }
    {
        self.admit(a)?;
        if self.job.count < self.needed() {
            let value = self.pair().kept(a);
            let at = self.job.count as usize;
            self.job.points[at] = a;
            self.job.values[at] = value;
            self.job.count += 1;
            return Ok(Offer::Kept);
        }
        if !self.agrees(a) {
            return Err(Refusal::Disagrees);
        }
        Ok(Offer::Surplus)
    }

    // The points of a lot left to right, each as a single offer; one answer byte for each
    pub fn lot(&mut self, points: &[u32], answers: &mut [u8])
        requires room { length points.now ≤ length answers.old }
        ensures job { self.new.job ≡ Calls.lotted self.old.job points.now }
        ensures bytes { answers.new ≡ Calls.lot_answers self.old.job points.now ++ drop (length points.now) answers.old }
    {
        // by its index, since of what is written through `answers.iter_mut().zip(points)` a proof knows nothing
        for (i, a) in points.iter().enumerate() {
            answers[i] = answer(self.offer(*a)) as u8;
        }
    }
}
