// The job: two polynomials, and the points kept so far with their values.
#![tactic(auto)]

ghost use Rattle.std.specs.Prelude.{◌≡◌};
ghost use Rattle.job.specs.Job.{blank};

// A record of whole numbers alone, so that every pattern of its bytes is a record: the calls check it.
// The coefficient of x^i y^j of A stands at 17 i + j of `a`, and so for B.
#[repr(C)]
#[derive(Clone, Copy)]
pub struct Job {
    pub p: u32,
    pub m: u32,
    pub n: u32,
    pub da: u32,
    pub db: u32,
    pub count: u32,
    pub a: [u32; 289],
    pub b: [u32; 289],
    pub points: [u32; 513],
    pub values: [u32; 513],
}

// The all-zero record. A derived default would say of the arrays only that their entries are defaults.
#[tactic(auto, unfolding(crate::specs::Job::blank))]
impl Default for Job {
    ghost is_default = { λ j. j ≡ blank };

    fn default() -> Job {
        Job {
            p: 0,
            m: 0,
            n: 0,
            da: 0,
            db: 0,
            count: 0,
            a: [0; 289],
            b: [0; 289],
            points: [0; 513],
            values: [0; 513],
        }
    }
}

// What an opening, an offer or a lot answers: the number, and the job afterwards. C sees it, so the number is one.
#[repr(C)]
#[derive(Clone, Copy)]
pub struct JobAnswer {
    pub number: u32,
    pub job: Job,
}

// What a read or a one-shot answers, as C sees it. wanted: how many points are still wanted, with 14. zero: 1 where the
// polynomial is zero.
#[repr(C)]
#[derive(Clone, Copy)]
pub struct ReadAnswer {
    pub number: u32,
    pub wanted: u32,
    pub degree: u32,
    pub zero: u32,
}
