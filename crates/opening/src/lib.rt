// Opening: from two tables to a job, or to the first refusal.
#![tactic(auto)]

ghost use Rattle.std.specs.Prelude.{◌≡◌, IfOk, IfErr};
ghost use Rattle.checks.specs.Outcome.{outcome};
ghost use Rattle.job.specs.Job as layout;
ghost use Rattle.job.specs.Public.{strict_number, strict_job};

use checks::{Given, Refusal, Sheet};
use job::Job;
use offers::SoundJob;
use points::{Pair, Table};

// A table laid out 17 places to a power of x
pub fn spread(sheet: Sheet) -> [u32; 289]
    ensures { result ≡ layout.spread sheet.entry.given.e sheet.entry.given.entries.now }
{
    let Given { m, e, entries } = sheet.given;
    let row = e as usize + 1;
    let mut out = [0u32; 289];
    // rows are 17 apart in one and e + 1 in the other; of what is written through `chunks_mut` a proof knows nothing
    for i in 0..m as usize + 1 {
        out[i * 17..i * 17 + row].copy_from_slice(&entries[i * row..i * row + row]);
    }
    out
}

// The strict opening, worked out in the record that it opens: the first refusal, which leaves the record as it came, or the
// job with no point kept. D, and with it the count of usable points, goes by the powers of y that really occur.
pub fn strict_in(p: u32, a: Given, b: Given, job: &mut Job) -> Result<(), Refusal>
    ensures number { outcome result ≡ strict_number p a.entry.m a.entry.e b.entry.m b.entry.e a.entry.entries.now b.entry.entries.now }
    ensures opened { IfOk result (λ _. job.new ≡ strict_job p a.entry.m a.entry.e b.entry.m b.entry.e a.entry.entries.now b.entry.entries.now) }
    ensures refused { IfErr result (λ _. job.new ≡ job.old) }
{
    let sheets = checks::shape(p, a, b)?;
    let laid_a = spread(sheets.a);
    let laid_b = spread(sheets.b);
    let m = a.m as usize;
    let n = b.m as usize;
    let da = points::true_degree(&laid_a, m);
    let db = points::true_degree(&laid_b, n);
    let pair = Pair {
        p: sheets.p,
        a: Table {
            entries: &laid_a,
            m,
            d: da,
        },
        b: Table {
            entries: &laid_b,
            m: n,
            d: db,
        },
    };
    let wanted = pair.needed();
    if !pair.has_usable(wanted) {
        return Err(Refusal::Scarce);
    }
    job.p = p;
    job.m = a.m;
    job.n = b.m;
    job.da = da as u32;
    job.db = db as u32;
    job.count = 0;
    job.a = laid_a;
    job.b = laid_b;
    job.points = [0; 513];
    job.values = [0; 513];
    Ok(())
}

// The same, as a sound job of its own.
pub fn strict(p: u32, a: Given, b: Given) -> Result<SoundJob, Refusal>
    ensures number { outcome result ≡ strict_number p a.entry.m a.entry.e b.entry.m b.entry.e a.entry.entries.now b.entry.entries.now }
    ensures job { IfOk result (λ j. j.job ≡ strict_job p a.entry.m a.entry.e b.entry.m b.entry.e a.entry.entries.now b.entry.entries.now) }
{
    let mut job = Job::default();
    strict_in(p, a, b, &mut job)?;
    Ok(SoundJob { job })
}
