// The test that every offer, lot and read makes once per call: whether a record is sound.
#![tactic(auto)]

ghost use Rattle.std.specs.Prelude.{◌≡◌, true, cond, ◌≤◌, length, drop, IfOk};
ghost use Rattle.scope.specs.Point.{enough};
ghost use Rattle.points.specs.Lent.{pair_at};
ghost use Rattle.checks.specs.Outcome.{outcome};
ghost use Rattle.job.specs.Job.{pair_of};
ghost use Rattle.job.specs.Sound.{zeros, sound_pair, sound_points, shaped, sound?};
ghost use Rattle.offers.specs.Lent.{IsOpened};
ghost use Rattle.sounding.specs.Parts.{sound_numbers, sound_table, sound_tables, kept_at, kept_pairs};

use checks::{Given, Refusal, Sheet};
use job::Job;
use offers::SoundJob;
use points::Pair;

// Whether every entry from k on is 0
pub fn zeros_from(t: &[u32], k: usize) -> bool
    ensures { result ≡ zeros (drop k t.now) }
{
    t.iter().skip(k).all(|x| *x == 0)
}

// Whether a table is one that an accepted opening lays out: entries below p, zeros outside its m + 1 rows, a leading
// row that is not zero, and d the largest power of y that occurs; no `Table` before that is known
#[tactic(auto, using(crate::proofs::Tables::front_lead), unfolding(crate::specs::Parts::sound_table, scope::specs::Pair::size))]
fn sound_table(p: u32, t: &[u32; 289], m: u32, d: u32) -> bool
    requires { m ≤ 16 }
    ensures { result ≡ sound_table p m d t.now }
{
    let end = (m as usize + 1) * 17;
    let rows = Sheet {
        given: Given {
            m,
            e: 16,
            entries: &t[..end],
        },
    };
    !checks::over(p, t)
        && zeros_from(t, end)
        && !rows.no_lead()
        && d as usize == points::true_degree(t, m as usize)
}

// Whether the modulus and the degrees in x are those of an accepted opening
#[tactic(auto, unfolding(crate::specs::Parts::sound_numbers))]
fn sound_numbers(p: u32, m: u32, n: u32) -> bool
    ensures { result ≡ sound_numbers p m n }
{
    !checks::outside(p) && !checks::composite(p) && !checks::too_high(m) && !checks::too_high(n)
}

// Whether as many usable points exist as are needed
#[tactic(auto, using(crate::proofs::Record::lent_enough))]
fn has_enough(j: &Job) -> bool
    requires { IsOpened j.now }
    ensures { result ≡ enough (pair_of j.now) }
{
    let pair = offers::lend(j);
    pair.has_usable(pair.needed())
}

// Whether both tables are such tables, and as many usable points exist as they need
#[tactic(auto, using(crate::proofs::Record::opening), unfolding(crate::specs::Parts::sound_tables))]
fn sound_tables(j: &Job) -> bool
    requires { sound_numbers j.now.p j.now.m j.now.n ≡ true }
    ensures { result ≡ sound_tables j.now.p j.now.m j.now.da j.now.n j.now.db j.now.a j.now.b }
{
    sound_table(j.p, &j.a, j.m, j.da) && sound_table(j.p, &j.b, j.n, j.db) && has_enough(j)
}

// Whether modulus, degrees and coefficients are those of an accepted opening. The arrays of any record have their lengths.
#[tactic(auto, using(crate::proofs::Record::pair_parts), unfolding(job::specs::Sound::shaped))]
pub fn sound_pair(j: &Job) -> bool
    ensures answer { result ≡ sound_pair j.now }
    ensures shape { shaped j.now ≡ true }
{
    sound_numbers(j.p, j.m, j.n) && sound_tables(j)
}

// Whether a point would have been kept with this value after those before it: below p, new, usable, and the value its own
#[tactic(auto, using(crate::proofs::Pairs::tests), unfolding(scope::specs::Pair::tables))]
fn kept_pair(pair: Pair, before: &[u32], a: u32, value: u32) -> bool
    ensures { result ≡ kept_at (pair_at pair.entry) before.now a value }
{
    a < pair.p.value && !before.contains(&a) && pair.usable(a) && value == pair.kept(a)
}

// Whether each of the pairs would have been kept; points and values come as two slices, since the job record, which C
// sees, holds them as two arrays
fn kept_pairs(pair: Pair, points: &[u32], values: &[u32]) -> bool
    requires { length points.now ≡ length values.now }
    ensures { result ≡ kept_pairs (pair_at pair.entry) points.now values.now }
{
    (0..points.len()).all(|i| kept_pair(pair, &points[..i], points[i], values[i]))
}

// Whether the kept pairs of a record whose pair is sound are no more than are needed, each would have been kept, and the
// other slots are empty
pub fn sound_points(j: &Job) -> bool
    requires { sound_pair j.now ≡ true }
    ensures { result ≡ sound_points j.now }
{
    let pair = offers::lend(j);
    let count = j.count as usize;
    count <= pair.needed()
        && zeros_from(&j.points, count)
        && zeros_from(&j.values, count)
        && kept_pairs(pair, &j.points[..count], &j.values[..count])
}

// Whether a record is sound; any record may be asked
#[tactic(auto, using(crate::proofs::Record::record_parts))]
pub fn is_sound(j: &Job) -> bool
    ensures { result ≡ sound? j.now }
{
    sound_pair(j) && sound_points(j)
}

// The record as a sound job, where it is one
pub fn sound(j: Job) -> Result<SoundJob, Refusal>
    ensures number { outcome result ≡ cond (sound? j) 0 16 }
    ensures ok { IfOk result (λ s. s.job ≡ j) }
{
    if !is_sound(&j) {
        return Err(Refusal::Unsound);
    }
    Ok(SoundJob { job: j })
}
