// Arithmetic on lent slices: values of polynomials, a pair of tables at a point, and Newton's rule.
#![tactic(auto)]

ghost use Rattle.std.specs.Prelude.{◌≡◌, ℕ, cond, not, ◌+◌, ◌*◌, ◌-◌, ◌<◌, ◌≤◌, ◌++◌, eqb, length, get_or, drop, Option, Some, None, IfSome};
ghost use Rattle.residue.specs.Residue.{residues, res, val};
ghost use Rattle.residue.specs.Inverse.{inv};
ghost use Rattle.polynomial.specs.Interpolation.{newton};
ghost use Rattle.scope.specs.Pair.{term, tables, some, occurs, largest};
ghost use Rattle.scope.specs.Point.{tabulate, row_at, usable};
ghost use Rattle.scope.specs.Recovery.{Different};
ghost use Rattle.points.specs.Table.{IsTable, IsTable-prop};
ghost use Rattle.points.specs.Step.{value_of, weight_of, plus_multiple, times_linear};

use field::Modulus;

// The value at a of the polynomial with these coefficients, lowest first: Horner's rule
pub fn value_at(p: u32, coefficients: &[u32], a: u32) -> u32
    requires { 0 < p }
    ensures { result ≡ value_of p (length coefficients.now) coefficients.now a }
{
    coefficients
        .iter()
        .rev()
        .fold(0, |r, c| field::mul_add(p, r, a, *c))
}

// Whether y^j stands in some row up to m
fn power_occurs(t: &[u32; 289], m: usize, j: usize) -> bool
    requires m_bound { m ≤ 16 }
    requires j_bound { j ≤ 16 }
    ensures { result ≡ occurs m (term 16 t.now) j }
{
    // one place of each row: the rows are 17 apart, so it goes over their numbers
    (0..m + 1).any(|i| t[i * 17 + j] != 0)
}

// The largest power of y that really occurs in the rows up to m; 0 where none does. A `Table` needs it first.
pub fn true_degree(t: &[u32; 289], m: usize) -> usize
    requires { m ≤ 16 }
    ensures { result ≡ largest 16 (occurs m (term 16 t.now)) }
{
    (1..17).rev().find(|j| power_occurs(t, m, *j)).unwrap_or(0)
}

// A table of one polynomial, 17 places to a power of x: the coefficient of x^i y^j stands at 17 i + j. Its degree in x
// is m, and no power of y above d occurs.
#[derive(Clone, Copy)]
pub struct Table<'a> {
    pub entries: &'a [u32; 289],
    pub m: usize,
    pub d: usize,
    pub ghost fits: { IsTable m d entries.now } by { IsTable-prop m d entries.now },
}

impl Table<'_> {
    // The value at y = a of row i, a polynomial in y
    fn row_value(self, p: u32, i: usize, a: u32) -> u32
        requires p_nonzero { 0 < p }
        requires row { i ≤ self.m }
        ensures { result ≡ Rattle.scope.specs.Point.value_at p 16 (term 16 self.entry.entries.now) i a }
    {
        let entries = self.entries;
        value_at(p, &entries[i * 17..=i * 17 + self.d], a)
    }

    // The rows at y = a, lowest power of x first, in the first m + 1 places of out
    pub fn row_at(self, p: Modulus, a: u32, out: &mut [u32])
        requires { self.m + 1 ≤ length out.old }
        ensures { out.new ≡ row_at p.value self.entry.m 16 (term 16 self.entry.entries.now) a ++ drop (self.entry.m + 1) out.old }
    {
        let rows = &mut out[..self.m + 1];
        for (i, value) in rows.iter_mut().enumerate() {
            *value = self.row_value(p.value, i, a);
        }
    }
}

// Whether the leading rows of both tables are nonzero at y. It and what it calls ask of p only that it is not 0, as
// docs/PROMISES.md names it; so they take the number and not a prime modulus.
#[tactic(auto, unfolding(scope::specs::Point::usable, scope::specs::Pair::tables))]
pub fn usable_at(p: u32, a: Table, b: Table, y: u32) -> bool
    requires { 0 < p }
    ensures { result ≡ usable (tables p a.entry.m 16 b.entry.m 16 a.entry.entries.now b.entry.entries.now) y }
{
    a.row_value(p, a.m, y) != 0 && b.row_value(p, b.m, y) != 0
}

// Two polynomials modulo a prime
#[derive(Clone, Copy)]
pub struct Pair<'a> {
    pub p: Modulus,
    pub a: Table<'a>,
    pub b: Table<'a>,
}

impl Pair<'_> {
    ghost use Rattle.std.specs.Prelude.{leb};
    ghost use Rattle.scope.specs.Point.{usables, kept};
    ghost use Rattle.points.specs.Lent.{pair_at};

    // How many points are needed: D + 1
    pub fn needed(self) -> usize
        ensures { result ≡ self.entry.b.m * self.entry.a.d + self.entry.a.m * self.entry.b.d + 1 }
    {
        self.b.m * self.a.d + self.a.m * self.b.d + 1
    }

    // Whether both leading rows are nonzero at y
    pub fn usable(self, y: u32) -> bool
        ensures { result ≡ usable (pair_at self.entry) y }
    {
        usable_at(self.p.value, self.a, self.b, y)
    }

    // The value kept at y: the determinant of the two polynomials there, at their declared degrees
    pub fn kept(self, y: u32) -> u32
        ensures { result ≡ kept (pair_at self.entry) y }
    {
        let mut u = [0u32; 17];
        let mut w = [0u32; 17];
        let u = &mut u[..self.a.m + 1];
        let w = &mut w[..self.b.m + 1];
        self.a.row_at(self.p, y, u);
        self.b.row_at(self.p, y, w);
        rows::determinant_in(self.p, u, w)
    }

    // Whether at least `wanted` points below p are usable; it stops as soon as so many are found
    pub fn has_usable(self, wanted: usize) -> bool
        ensures { result ≡ leb wanted (length (usables (pair_at self.entry) self.entry.p.value)) }
    {
        let found = (0..self.p.value)
            .filter(|y| self.usable(*y))
            .take(wanted)
            .count();
        found == wanted
    }
}

// The four functions from here on hand p, x, v and both slices on, and each takes what it uses: a struct of two slices that
// are written in turn would have to say in each method which of both stays.

// out + c * t modulo p, entry by entry of out
fn add_multiple(p: Modulus, c: u32, t: &[u32], out: &mut [u32])
    requires as_long { length out.old ≤ length t.now }
    ensures { out.new ≡ tabulate (length out.old) (plus_multiple p.value c t.now out.old) }
{
    // t by its index, since of what is written through `out.iter_mut().zip(t)` a proof knows nothing
    for (k, value) in out.iter_mut().enumerate() {
        *value = field::mul_add(p.value, c, t[k], *value);
    }
}

// t * (y - x) modulo p, from the top down
fn times_linear(p: Modulus, x: u32, t: &mut [u32])
    requires x_below { x < p.value }
    requires some { 0 < length t.old }
    requires t_below { (k : ℕ) → k < length t.old → get_or t.old k 0 < p.value }
    ensures { t.new ≡ tabulate (length t.old) (times_linear p.value x t.old) }
{
    // each turn reads the place that the next one writes, so the range is walked and not the slice
    for k in (1..t.len()).rev() {
        t[k] = field::mul_sub(p.value, t[k - 1], x, t[k]);
    }
    t[0] = field::mul_sub(p.value, 0, x, t[0]);
}

// What out misses of v at x, over the value of t there: the multiple of t that Newton's next step adds to out
fn weight(p: Modulus, x: u32, v: u32, out: &[u32], t: &[u32]) -> u32
    requires v_below { v < p.value }
    requires as_long { length out.now ≤ length t.now }
    requires t_nonzero { 0 < value_of p.value (length out.now) t.now x }
    ensures { result ≡ weight_of p.value (length out.now) v out.now t.now x }
{
    let u = value_at(p.value, out, x);
    let z = value_at(p.value, &t[..out.len()], x);
    let missing = field::sub(p.value, v, u);
    field::mul(p.value, missing, p.inverse(z))
}

// One point more: out, where its last coefficient is 0, takes v at x too and keeps its values where t, of as many
// coefficients and one, is 0; and t takes in the factor y - x
fn next_point(p: Modulus, x: u32, v: u32, t: &mut [u32], out: &mut [u32])
    requires x_below { x < p.value }
    requires v_below { v < p.value }
    requires as_long { length t.old ≡ length out.old + 1 }
    requires t_below { (k : ℕ) → k < length t.old → get_or t.old k 0 < p.value }
    requires t_nonzero { 0 < value_of p.value (length out.old) t.old x }
    ensures out_after { out.new ≡ tabulate (length out.old) (plus_multiple p.value (weight_of p.value (length out.old) v out.old t.old x) t.old out.old) }
    ensures t_after { t.new ≡ tabulate (length t.old) (times_linear p.value x t.old) }
{
    let c = weight(p, x, v, out, t);
    add_multiple(p, c, t, out);
    times_linear(p, x, t);
}

// The coefficients of the polynomial that takes vs[i] at xs[i]: Newton's rule, one point more each turn. Points and values
// are two slices, since the job record, which C sees, holds them as two arrays.
pub fn interpolate(p: Modulus, xs: &[u32], vs: &[u32], out: &mut [u32])
    requires few { length out.old ≤ 513 }
    requires points { length out.old ≤ length xs.now }
    requires values { length out.old ≤ length vs.now }
    requires different { Different p.value (length out.old) (λ i. get_or xs.now i 0) }
    requires values_below { (i : ℕ) → i < length out.old → get_or vs.now i 0 < p.value }
    ensures { out.new ≡ tabulate (length out.old) (λ k. val p.value (newton (residues p.value) (inv p.value) (λ i. res p.value (get_or xs.now i 0)) (λ i. res p.value (get_or vs.now i 0)) (length out.old) k)) }
{
    out.fill(0);
    let mut product = [0u32; 514];
    product[0] = 1;
    // each turn lends a longer stretch of both
    for n in 0..out.len() {
        next_point(p, xs[n], vs[n], &mut product[..n + 2], &mut out[..n + 1]);
    }
}

// The degree of the polynomial with these coefficients, lowest first; None where it is zero
pub fn degree(coefficients: &[u32]) -> Option<usize>
    ensures bound { IfSome result (λ k. k < length coefficients.now) }
    ensures value { result ≡ cond (some (length coefficients.now) (λ k. not (eqb (get_or coefficients.now k 0) 0))) (Some (largest (length coefficients.now - 1) (λ k. not (eqb (get_or coefficients.now k 0) 0)))) None }
{
    rows::true_length(coefficients).checked_sub(1)
}
