// Rows modulo p: the multiply-and-subtract, division in the work row, which row divides, the row resultant, and the
// determinant at declared degrees.
#![tactic(auto)]

ghost use Rattle.std.specs.Prelude.{◌≡◌, ◌++◌, map, ℕ, ◌*◌, ◌%◌, ◌<◌, ◌≤◌, length, get_or};
ghost use Rattle.ring.specs.Ring.{Ring, pow, sign};
ghost use Rattle.residue.specs.Residue.{residues, res, val};
ghost use Rattle.residue.specs.Inverse;
ghost use Rattle.euclid.specs.Row.{declared, degree, trim, row_determinant};
ghost use Rattle.euclid.specs.RowLaws.{Below, Ended};
ghost use Rattle.euclid.specs.Division.{less, remainder, quotient, count};
ghost use Rattle.euclid.specs.Sequence.{monic, sequence, formula, steps, row_resultant, row_steps};
ghost use Rattle.euclid.specs.FollowingLaws.{Neighbours};
ghost use Rattle.rows.specs.Given.{IsRow, IsDeclared};
ghost use Rattle.rows.specs.Which.{pick, first?, lower};
ghost use Rattle.rows.specs.Last.{last_row, row_sequence, swapped, Lies};

use field::Modulus;

// What is asked of rows, `Below`, `IsRow` and `IsDeclared`, stands in clauses and in no type: rows are worked on in place,
// and are no such rows meanwhile. A row that is only read is the divisor of one that is worked on, or, in `resultant`, is
// copied into one.

// part[i] - q * b[i] for every entry of b, each in its place
pub fn subtract(p: u32, q: u32, part: &mut [u32], b: &[u32])
    requires room { length b.now ≤ length part.old }
    requires q_below { q < p }
    requires part_below { Below p part.old }
    requires b_below { Below p b.now }
    ensures { part.new ≡ less p q part.old b.now }
{
    // by its index, since of what is written through `part.iter_mut().zip(b)` a proof knows nothing
    for (i, y) in b.iter().enumerate() {
        part[i] = field::mul_sub(p, part[i], q, *y);
    }
}

// Division by b, whose last entry has the inverse f, from the top place of the quotient down. It takes the number p and not a
// prime modulus, as docs/PROMISES.md names it.
fn reduce(p: u32, f: u32, row: &mut [u32], b: &[u32])
    requires f_inverts { f ≡ Inverse.inverse p (get_or b.now (declared b.now) 0) }
    requires b_some { 0 < length b.now }
    requires room { length b.now ≤ length row.old }
    requires row_below { Below p row.old }
    requires b_below { Below p b.now }
    ensures { row.new ≡ remainder p row.old b.now ++ quotient p row.old b.now }
{
    let d = b.len() - 1;
    // each turn writes a stretch that the next one writes too, so the range is walked and not the slice
    for k in (0..row.len() - d).rev() {
        let q = field::mul(p, row[k + d], f);
        subtract(p, q, &mut row[k..], &b[..d]);
        row[k + d] = q;
    }
}

// Division in the work row: afterwards its first places hold the remainder and the others the quotient
pub fn divide(p: Modulus, row: &mut [u32], b: &[u32]) -> u32
    requires b_ended { Ended b.now }
    requires row_short { length row.old ≤ 17 }
    requires b_short { length b.now ≤ 17 }
    requires row_below { Below p.value row.old }
    requires b_below { Below p.value b.now }
    ensures divided { row.new ≡ remainder p.value row.old b.now ++ quotient p.value row.old b.now }
    ensures steps { result ≡ count (length row.old) (declared b.now) }
{
    let d = b.len() - 1;
    let l = row.len();
    if l <= d {
        return 0;
    }
    let f = p.inverse(b[d]);
    reduce(p.value, f, row, b);
    ((l - d) * d) as u32
}

// How many entries are left when the zeros at the end are cut off
pub fn true_length(r: &[u32]) -> usize
    ensures { result ≡ length (trim r.now) }
{
    match r.iter().rposition(|x| *x != 0) {
        Some(last) => last + 1,
        None => 0,
    }
}

// Which row divides: that stretch of the caller's own slice
pub fn divisor<'a>(a: &'a [u32], b: &'a [u32]) -> &'a [u32]
    ensures stretch { result.now ≡ lower a.now b.now }
    ensures own { result.ref_ptr ≡ pick (first? a.now b.now) a.entry.ref_ptr b.entry.ref_ptr }
{
    let m = true_length(a);
    let n = true_length(b);
    if m < n {
        return &a[..m];
    }
    &b[..n]
}

// Every entry times f
fn scale(p: Modulus, f: u32, r: &mut [u32])
    ensures { r.new ≡ map (λ (x : ℕ). x * f % p.value) r.old }
{
    for x in r.iter_mut() {
        *x = field::mul(p.value, *x, f);
    }
}

// The row divided by its last entry; there is nothing to do where that is 1
pub fn make_monic(p: Modulus, r: &mut [u32])
    requires ended { Ended r.old }
    requires below { Below p.value r.old }
    ensures { r.new ≡ monic p.value r.old }
{
    let last = r[r.len() - 1];
    if last != 1 {
        let f = p.inverse(last);
        scale(p, f, r);
    }
}

// (-1)^n x
fn signed(p: Modulus, n: usize, x: u32) -> u32
    requires { x < p.value }
    ensures below { result < p.value }
    ensures is { res p.value result ≡ Ring.◌⊗◌ (residues p.value) (sign (residues p.value) n) (res p.value x) }
{
    if n % 2 == 1 {
        field::sub(p.value, 0, x)
    } else {
        x
    }
}

// What one division of a row of degree m by one of degree n makes of the value x of the rest: lead^m (-1)^(mn) x
fn turn(p: Modulus, lead: u32, m: usize, n: usize, x: u32) -> u32
    requires x_below { x < p.value }
    requires m_most { m ≤ 16 }
    requires n_most { n ≤ 16 }
    ensures { result ≡ val p.value (Ring.◌⊗◌ (residues p.value) (pow (residues p.value) (res p.value lead) m) (Ring.◌⊗◌ (residues p.value) (sign (residues p.value) (m * n)) (res p.value x))) }
{
    let high = p.power(lead, m as u32);
    field::mul(p.value, high, signed(p, m * n, x))
}

// One division of the sequence: r is made monic, and before divided by it in place
fn divided(p: Modulus, before: &mut [u32], r: &mut [u32]) -> u32
    requires neighbours { Neighbours p.value before.old r.old }
    requires before_short { length before.old ≤ 17 }
    ensures made_monic { r.new ≡ monic p.value r.old }
    ensures divided { before.new ≡ remainder p.value before.old (monic p.value r.old) ++ quotient p.value before.old (monic p.value r.old) }
    ensures steps { result ≡ count (length before.old) (declared r.old) }
{
    make_monic(p, r);
    divide(p, before, r)
}

// Where a row stands: at the start of the first of two work rows or of the second, so many entries long
#[derive(Clone, Copy, PartialEq, Eq)]
pub enum Place {
    First(usize),
    Second(usize),
}

impl Place {
    // The same place, where the two work rows are named in the other order
    pub fn swapped(self) -> Place
        ensures { result ≡ swapped self }
    {
        match self {
            Place::First(len) => Place::Second(len),
            Place::Second(len) => Place::First(len),
        }
    }
}

// What a run of the sequence finds: the value of the formula, the coefficient steps, and where its last row stands
// when it is made monic
#[derive(Clone, Copy)]
pub struct Found {
    pub value: u32,
    pub steps: u32,
    pub last: Place,
}

// The monic remainder sequence of two rows, the second no longer than the first, worked out in those rows
pub fn euclid(p: Modulus, before: &mut [u32], r: &mut [u32]) -> Found
    requires neighbours { Neighbours p.value before.old r.old }
    requires before_short { length before.old ≤ 17 }
    ensures value { result.value ≡ val p.value (formula p.value (sequence p.value before.old r.old)) }
    ensures steps { result.steps ≡ steps (map degree (sequence p.value before.old r.old)) }
    ensures lies { Lies (monic p.value (last_row (sequence p.value before.old r.old))) before.new r.new result.last }
{
    let m = before.len() - 1;
    let n = r.len() - 1;
    let lead = r[n];
    if n == 0 {
        r[0] = 1;
        return Found {
            value: p.power(lead, m as u32),
            steps: 0,
            last: Place::Second(1),
        };
    }
    let steps = divided(p, before, r);
    let k = true_length(&before[..n]);
    if k == 0 {
        return Found {
            value: 0,
            steps,
            last: Place::Second(n + 1),
        };
    }
    let rest = euclid(p, r, &mut before[..k]);
    Found {
        value: turn(p, lead, m, n, rest.value),
        steps: steps + rest.steps,
        last: rest.last.swapped(),
    }
}

// The row resultant, worked out in the two rows: where the first is shorter they change places, with the sign (-1)^(mn)
pub fn resultant_in(p: Modulus, u: &mut [u32], w: &mut [u32]) -> Found
    requires u_row { IsRow p.value u.old }
    requires w_row { IsRow p.value w.old }
    ensures value { result.value ≡ val p.value (row_resultant p.value u.old w.old) }
    ensures steps { result.steps ≡ row_steps p.value u.old w.old }
    ensures lies { Lies (monic p.value (last_row (row_sequence p.value u.old w.old))) u.new w.new result.last }
{
    if u.len() < w.len() {
        let turns = (u.len() - 1) * (w.len() - 1);
        let found = euclid(p, w, u);
        return Found {
            value: signed(p, turns, found.value),
            steps: found.steps,
            last: found.last.swapped(),
        };
    }
    euclid(p, u, w)
}

// The row resultant of two lent rows, which stay as they are. Its work rows are gone, so nothing is said of where the last
// one lies.
pub fn resultant(p: Modulus, a: &[u32], b: &[u32]) -> Found
    requires a_row { IsRow p.value a.now }
    requires b_row { IsRow p.value b.now }
    ensures value { result.value ≡ val p.value (row_resultant p.value a.now b.now) }
    ensures steps { result.steps ≡ row_steps p.value a.now b.now }
{
    let mut u = [0u32; 17];
    let mut w = [0u32; 17];
    let u = &mut u[..a.len()];
    let w = &mut w[..b.len()];
    u.copy_from_slice(a);
    w.copy_from_slice(b);
    resultant_in(p, u, w)
}

// The determinant at declared degrees m and n, where the first row keeps its degree and the second may fall: to degree k,
// which brings in lead^(n-k), or to nothing, which leaves 0; where m = 0 it is lead^n
fn fallen(p: Modulus, u: &mut [u32], w: &mut [u32]) -> u32
    requires u_row { IsRow p.value u.old }
    requires w_declared { IsDeclared p.value w.old }
    ensures { result ≡ val p.value (row_determinant p.value u.old w.old) }
{
    let m = u.len() - 1;
    let n = w.len() - 1;
    let lead = u[m];
    if m == 0 {
        return p.power(lead, n as u32);
    }
    let len = true_length(w);
    if len == 0 {
        return 0;
    }
    let k = len - 1;
    let high = p.power(lead, (n - k) as u32);
    let rest = resultant_in(p, u, &mut w[..len]);
    field::mul(p.value, high, rest.value)
}

// The determinant of Sylvester's matrix at the declared degrees of the two rows, whatever their leading entries are, worked
// out in them: where the first falls they change places, with the sign (-1)^(mn); where both do it is 0, and 1 if m = n = 0
pub fn determinant_in(p: Modulus, u: &mut [u32], w: &mut [u32]) -> u32
    requires u_declared { IsDeclared p.value u.old }
    requires w_declared { IsDeclared p.value w.old }
    ensures { result ≡ val p.value (row_determinant p.value u.old w.old) }
{
    let m = u.len() - 1;
    let n = w.len() - 1;
    match (u[m] != 0, w[n] != 0) {
        (true, true) => resultant_in(p, u, w).value,
        (true, false) => fallen(p, u, w),
        (false, true) => signed(p, m * n, fallen(p, w, u)),
        (false, false) => u32::from(m + n == 0),
    }
}
