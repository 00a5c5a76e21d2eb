// Arithmetic modulo p on numbers of 32 bits. Every number returned is the remainder itself, below p; what its residue
// is stands in residue's specs/Computed.antt.
// Nothing here asks that p stay below 2^31: each function takes every p that its contract admits.
#![tactic(auto)]

ghost use Rattle.std.specs.Prelude.{◌≡◌, ◌↔◌, true, ◌+◌, ◌*◌, ◌-◌, ◌%◌, ◌<◌, ◌≤◌, IsSome, IfSome};
ghost use Rattle.ring.specs.Ring.{pow};
ghost use Rattle.residue.specs.Prime.{Prime};
ghost use Rattle.residue.specs.PrimeLaws.{Prime-prop};
ghost use Rattle.residue.specs.Residue.{residues, res};
ghost use Rattle.residue.specs.Inverse;

// A prime modulus: at least 2, and divided by no smaller number from 2 on
#[derive(Clone, Copy)]
pub struct Modulus {
    pub value: u32,
    pub ghost least: { 2 ≤ value },
    pub ghost prime: { Prime value } by { Prime-prop value },
}

impl Modulus {
    // p, where it is such a modulus
    pub fn new(p: u32) -> Option<Modulus>
        ensures some { IfSome result (λ q. q.value ≡ p) }
        ensures prime { IsSome result ↔ ((2 ≤ p) × Prime p) }
    {
        if p < 2 || !is_prime(p) {
            return None;
        }
        Some(Modulus { value: p })
    }

    // a to the power n, by squaring, for any a
    pub fn power(self, a: u32, n: u32) -> u32
        ensures { (result < self.value) × (res self.value result ≡ pow (residues self.value) (res self.value a) n) }
    {
        let mut r: u32 = 1;
        let mut base = a;
        let mut left = n;
        // what is left is halved, not counted, so there is no range to go over
        while left > 0 {
            if left % 2 == 1 {
                r = mul(self.value, r, base);
            }
            base = mul(self.value, base, base);
            left = left / 2;
        }
        r
    }

    // The inverse of a, by Euclid's algorithm on the modulus and a. Of each remainder r the magnitude t with
    // r = t * a or r = -t * a modulo p is kept; the signs alternate.
    pub fn inverse(self, a: u32) -> u32
        requires a_nonzero { 0 < a }
        requires a_below { a < self.value }
        ensures { result ≡ Inverse.inverse self.value a }
    {
        let mut r0 = self.value;
        let mut r1 = a;
        let mut t0: u32 = 0;
        let mut t1: u32 = 1;
        let mut minus = false;
        // Euclid's algorithm counts nothing
        while r1 > 1 {
            let q = r0 / r1;
            let r2 = r0 - q * r1;
            let t2 = q * t1 + t0;
            r0 = r1;
            r1 = r2;
            t0 = t1;
            t1 = t2;
            minus = !minus;
        }
        if minus { self.value - t1 } else { t1 }
    }
}

// The five that follow take p as a number, and ask no more than that it is not 0, or that what is given is below it:
// `rows::subtract`, `points::usable_at` and `plain::Matrix::determinant`, which docs/PROMISES.md names, know no more of it
// than that or 2 <= p.

// a + b modulo p: the sum is made only where it stays below p
pub fn add(p: u32, a: u32, b: u32) -> u32
    requires a_lt_p { a < p }
    requires b_lt_p { b < p }
    ensures { result ≡ (a + b) % p }
{
    let gap = p - b;
    if a < gap { a + b } else { a - gap }
}

// a - b modulo p
pub fn sub(p: u32, a: u32, b: u32) -> u32
    requires a_lt_p { a < p }
    requires b_lt_p { b < p }
    ensures { result ≡ (a + (p - b)) % p }
{
    if b <= a { a - b } else { a + (p - b) }
}

// a * b modulo p, for any a and b
pub fn mul(p: u32, a: u32, b: u32) -> u32
    requires { 0 < p }
    ensures { result ≡ (a * b) % p }
{
    mul_add(p, a, b, 0)
}

// a * b + c modulo p, with one remainder, for any a, b and c
pub fn mul_add(p: u32, a: u32, b: u32, c: u32) -> u32
    requires { 0 < p }
    ensures { result ≡ (a * b + c) % p }
{
    (((a as u64) * (b as u64) + (c as u64)) % (p as u64)) as u32
}

// c - q * b modulo p, with one remainder: c + (p - b) * q stays below 2^64
pub fn mul_sub(p: u32, c: u32, q: u32, b: u32) -> u32
    requires c_lt_p { c < p }
    requires q_lt_p { q < p }
    requires b_lt_p { b < p }
    ensures { result ≡ (c + (p - (q * b) % p)) % p }
{
    let minus = (p - b) as u64;
    ((minus * (q as u64) + (c as u64)) % (p as u64)) as u32
}

// Whether no d with 2 <= d and d * d <= p divides p, by trial of 2 and of the odd d
pub fn is_prime(p: u32) -> bool
    ensures { (result ≡ true) ↔ Prime p }
{
    if 4 <= p && p % 2 == 0 {
        return false;
    }
    let mut d: u32 = 3;
    // a range to the square root would need the root first
    while (d as u64) * (d as u64) <= (p as u64) {
        if p % d == 0 {
            return false;
        }
        d = d + 2;
    }
    true
}
