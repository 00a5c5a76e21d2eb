// The determinant of Sylvester's matrix by expansion along rows, for m + n <= 6.
#![tactic(auto)]

ghost use Rattle.std.specs.Prelude.{◌≡◌, ℕ, ◌+◌, ◌-◌, ◌<◌, ◌≤◌, length, remove};
ghost use Rattle.ring.specs.Det.{det};
ghost use Rattle.residue.specs.Residue.{residues, res, val};
ghost use Rattle.euclid.specs.Row.{declared, row_determinant};
ghost use Rattle.plain.specs.Expansion.{cell, part, Columns, signed};
ghost use Rattle.plain.specs.Rows.{shifted_row, row_matrix};

use field::{Modulus, add, mul, sub};
use std::array;

// The columns without the one at place j, written into others
fn without(cols: &[usize], j: usize, others: &mut [usize])
    requires j_below { j < length cols.now }
    requires room { length others.old + 1 ≡ length cols.now }
    ensures { others.new ≡ remove cols.now j }
{
    others[..j].copy_from_slice(&cols[..j]);
    others[j..].copy_from_slice(&cols[j + 1..]);
}

// Row a, highest power first and moved i places right: what stands at place k
fn shifted(a: &[u32], i: usize, k: usize) -> u32
    requires { 0 < length a.now }
    ensures { (p : ℕ) → res p result ≡ shifted_row p a.now i k }
{
    if k < i || a.len() <= k - i {
        return 0;
    }
    a[a.len() - 1 - (k - i)]
}

// The two rows of Sylvester's matrix, lowest power first
#[derive(Clone, Copy)]
pub struct Rows<'a> {
    pub a: &'a [u32],
    pub b: &'a [u32],
    pub ghost a_some: { 0 < length a.now },
    pub ghost b_some: { 0 < length b.now },
}

impl Rows<'_> {
    // Row i, column k of the matrix
    fn entry(self, i: usize, k: usize) -> u32
        ensures { (p : ℕ) → res p result ≡ row_matrix p self.entry.a.now self.entry.b.now i k }
    {
        let n = self.b.len() - 1;
        if i < n {
            return shifted(self.a, i, k);
        }
        shifted(self.b, i - n, k)
    }

    // The first six rows and columns of the matrix
    fn cells(self) -> [u32; 36]
        ensures { (p i k : ℕ) → i < 6 → k < 6 → cell p result i k ≡ row_matrix p self.entry.a.now self.entry.b.now i k }
    {
        array::from_fn(|at| self.entry(at / 6, at % 6))
    }
}

// A matrix modulo p in 36 numbers, six to a row: the one in row i and column k stands at 6 i + k. Memory is fixed, so a
// smaller matrix is a part of this: the rows from some row on, in some columns. Of p no more is asked than that it is at
// least 2, since `determinant` and `term`, which docs/PROMISES.md names, ask no more.
#[derive(Drop)]
pub struct Matrix {
    pub p: u32,
    pub cells: [u32; 36],
    pub ghost p_least: { 2 ≤ p },
}

impl Matrix {
    // The determinant of the rows from `row` on in the columns that cols lists, as many of either
    #[cycle(determinant_term)]
    pub fn determinant(&self, row: usize, cols: &[usize]) -> u32
        requires rows_left { row + length cols.now ≤ 6 }
        requires columns { Columns (length cols.now) cols.now }
        ensures { result ≡ val self.now.p (det (residues self.now.p) (length cols.now) (part (cell self.now.p self.now.cells) row cols.now)) }
    {
        if cols.is_empty() {
            return 1;
        }
        let mut sum: u32 = 0;
        // no `fold`: a closure in a cycle of calls needs clauses of its own, and they would repeat both contracts
        for j in 0..cols.len() {
            sum = add(self.p, sum, self.term(row, cols, j));
        }
        sum
    }

    // The term of the column at place j in the expansion along `row`, with its sign
    #[cycle(determinant_term)]
    fn term(&self, row: usize, cols: &[usize], j: usize) -> u32
        requires rows_left { row + length cols.now ≤ 6 }
        requires columns { Columns (length cols.now) cols.now }
        requires j_below { j < length cols.now }
        ensures { result ≡ val self.now.p (signed (residues self.now.p) (length cols.now - 1) (part (cell self.now.p self.now.cells) row cols.now) j) }
    {
        let mut others = [0usize; 6];
        let others = &mut others[..cols.len() - 1];
        without(cols, j, others);
        let minor = self.determinant(row + 1, others);
        let product = mul(self.p, self.cells[row * 6 + cols[j]], minor);
        if j % 2 == 0 {
            product
        } else {
            sub(self.p, 0, product)
        }
    }
}

// The determinant of Sylvester's matrix of two rows, modulo p
pub fn plain(p: Modulus, rows: Rows) -> u32
    requires { declared rows.a.now + declared rows.b.now ≤ 6 }
    ensures { result ≡ val p.value (row_determinant p.value rows.entry.a.now rows.entry.b.now) }
{
    let matrix = Matrix {
        p: p.value,
        cells: rows.cells(),
    };
    let m = rows.a.len() - 1;
    let n = rows.b.len() - 1;
    let columns = [0, 1, 2, 3, 4, 5];
    matrix.determinant(0, &columns[..m + n])
}
