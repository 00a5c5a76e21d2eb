// The calls as C sees them: numbers, slices as a pointer and a length, and records of whole numbers by value.
// Each function is one public call of the crate kernel; which row divides, where a slice cannot be handed back, answers
// the side and the length of the stretch that the call would hand back.
#![tactic(auto)]

ghost use Rattle.std.specs.Prelude.{◌≡◌, length};
ghost use Rattle.euclid.specs.Row.{trim};
ghost use Rattle.rows.specs.Which.{lower, first?, pick};
ghost use Rattle.kernel.specs.Results.{RowResult, PlainResult, DivisionResult, OpenResult, OfferResult, LotResult, ReadResult, ShotResult};

use job::{Job, JobAnswer, ReadAnswer};
use kernel::{DivisionAnswer, PlainAnswer, RowAnswer};

// Which row divides, where a slice cannot be handed back to C: its side, 0 or 1, and its length.
#[repr(C)]
#[derive(Clone, Copy)]
pub struct Stretch {
    pub side: u32,
    pub length: usize,
}

#[unsafe(no_mangle)]
pub extern "C" fn pukilembo_row_resultant(p: u32, a: &[u32], b: &[u32]) -> RowAnswer
    ensures { RowResult p a.now b.now result }
{
    kernel::row_resultant(p, a, b)
}

#[unsafe(no_mangle)]
pub extern "C" fn pukilembo_plain_determinant(p: u32, a: &[u32], b: &[u32]) -> PlainAnswer
    ensures { PlainResult p a.now b.now result }
{
    kernel::plain_determinant(p, a, b)
}

#[unsafe(no_mangle)]
pub extern "C" fn pukilembo_divide(p: u32, row: &mut [u32], b: &[u32]) -> DivisionAnswer
    ensures { DivisionResult p row.old b.now result row.new }
{
    kernel::divide(p, row, b)
}

// How many entries a row has up to its last nonzero one: as many as the divisor between the row and itself
fn true_length(r: &[u32]) -> usize
    ensures { result ≡ length (trim r.now) }
{
    kernel::divisor(r, r).len()
}

// C is told which row and how many of its entries: the one of lower true length divides, the second on a tie
#[unsafe(no_mangle)]
pub extern "C" fn pukilembo_divisor(a: &[u32], b: &[u32]) -> Stretch
    ensures { (result.side ≡ pick (first? a.now b.now) 0 1) × (result.length ≡ length (lower a.now b.now)) }
{
    let first = true_length(a);
    let second = true_length(b);
    if first < second {
        return Stretch {
            side: 0,
            length: first,
        };
    }
    Stretch {
        side: 1,
        length: second,
    }
}

#[unsafe(no_mangle)]
pub extern "C" fn pukilembo_open(
    p: u32,
    m: u32,
    e: u32,
    n: u32,
    f: u32,
    a: &[u32],
    b: &[u32],
) -> JobAnswer
    ensures { OpenResult p m e n f a.now b.now result }
{
    kernel::open(p, m, e, n, f, a, b)
}

#[unsafe(no_mangle)]
pub extern "C" fn pukilembo_offer(j: Job, a: u32) -> JobAnswer
    ensures { OfferResult j a result }
{
    kernel::offer(j, a)
}

#[unsafe(no_mangle)]
pub extern "C" fn pukilembo_lot(j: Job, points: &[u32], answers: &mut [u8]) -> JobAnswer
    ensures { LotResult j points.now answers.old result answers.new }
{
    kernel::lot(j, points, answers)
}

#[unsafe(no_mangle)]
pub extern "C" fn pukilembo_read(j: Job, out: &mut [u32]) -> ReadAnswer
    ensures { ReadResult j out.old result out.new }
{
    kernel::read(j, out)
}

#[unsafe(no_mangle)]
pub extern "C" fn pukilembo_one_shot(
    p: u32,
    m: u32,
    e: u32,
    n: u32,
    f: u32,
    a: &[u32],
    b: &[u32],
    out: &mut [u32],
) -> ReadAnswer
    ensures { ShotResult p m e n f a.now b.now out.old result out.new }
{
    kernel::one_shot(p, m, e, n, f, a, b, out)
}
