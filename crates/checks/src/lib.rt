// What a call refuses of its input. A test says whether one refusal applies; a check answers the first refusal that
// applies in the scope's order, or hands out what it tested: the modulus, and the tables of an opening.
#![tactic(auto)]

ghost use Rattle.std.specs.Prelude.{◌≡◌, ◌≤◌, ◌||◌, length, is_none, IfOk, IfSome};
ghost use Rattle.scope.specs.Pair.{size};
ghost use Rattle.scope.specs.Number;
ghost use Rattle.checks.specs.Outcome.{number_of, wanted_of, outcome};
ghost use Rattle.checks.specs.Shape.{shape_number};
ghost use Rattle.checks.specs.Parts.{modulus_number, lengths_number, entries_number, division_rows_number};

use field::Modulus;

// Why a call is refused, by the names of the C header. Wanted says how many points a read still wants.
#[derive(Clone, Copy, PartialEq, Eq)]
pub enum Refusal {
    Range,
    Composite,
    Degree,
    Length,
    Entry,
    Lead,
    Scarce,
    Room,
    Point,
    Unusable,
    Repeated,
    Disagrees,
    Wanted(u32),
    Divisor,
    Unsound,
    Large,
}

impl Refusal {
    // What the scope's table lists for it. Two numbers belong to a refusal, so each has a name; `u32::from` would not say which.
    pub fn number(self) -> u32
        ensures { result ≡ number_of self }
    {
        match self {
            Refusal::Range => 2,
            Refusal::Composite => 3,
            Refusal::Degree => 4,
            Refusal::Length => 5,
            Refusal::Entry => 6,
            Refusal::Lead => 7,
            Refusal::Scarce => 8,
            Refusal::Room => 9,
            Refusal::Point => 10,
            Refusal::Unusable => 11,
            Refusal::Repeated => 12,
            Refusal::Disagrees => 13,
            Refusal::Wanted(_) => 14,
            Refusal::Divisor => 15,
            Refusal::Unsound => 16,
            Refusal::Large => 17,
        }
    }

    // How many points are still wanted; 0 with any other refusal
    pub fn wanted(self) -> u32
        ensures { result ≡ wanted_of self }
    {
        match self {
            Refusal::Wanted(points) => points,
            _ => 0,
        }
    }
}

// Range: p < 2 or p >= 2^31
#[tactic(auto, unfolding(scope::specs::Number::outside))]
pub fn outside(p: u32) -> bool
    ensures { result ≡ Number.outside p }
{
    p < 2 || 1 << 31 <= p
}

// Composite: not prime
#[tactic(auto, using(crate::proofs::Tests::prime_test))]
pub fn composite(p: u32) -> bool
    ensures { result ≡ Number.composite p }
{
    !field::is_prime(p)
}

// Degree: a declared degree above 16
#[tactic(auto, unfolding(scope::specs::Number::too_high))]
pub fn too_high(d: u32) -> bool
    ensures { result ≡ Number.too_high d }
{
    16 < d
}

// Degree: a row longer than 17
#[tactic(auto, unfolding(scope::specs::Number::too_long))]
pub fn too_long(r: &[u32]) -> bool
    ensures { result ≡ Number.too_long r.now }
{
    17 < r.len()
}

// Length: a row with no entry
#[tactic(auto, unfolding(scope::specs::Number::empty))]
pub fn empty(r: &[u32]) -> bool
    ensures { result ≡ Number.empty r.now }
{
    r.is_empty()
}

// Entry: one that is >= p
pub fn over(p: u32, t: &[u32]) -> bool
    ensures { result ≡ Number.over p t.now }
{
    t.iter().any(|x| p <= *x)
}

// Lead and Divisor: the last entry is zero, or there is none
pub fn unended(r: &[u32]) -> bool
    ensures { result ≡ Number.unended r.now }
{
    r.last().is_none_or(|x| *x == 0)
}

// A table as it is given: its declared degrees in x and y, and its entries; the coefficient of x^i y^j stands at
// i (e + 1) + j.
#[derive(Clone, Copy)]
pub struct Given<'a> {
    pub m: u32,
    pub e: u32,
    pub entries: &'a [u32],
}

// A table whose degrees are at most 16, and whose length is the one that they ask
#[derive(Clone, Copy)]
pub struct Sheet<'a> {
    pub given: Given<'a>,
    pub ghost m_low: { given.m ≤ 16 },
    pub ghost e_low: { given.e ≤ 16 },
    pub ghost fits: { length given.entries.now ≡ size given.m given.e },
}

// The modulus and the tables of an opening, tested but for the count of usable points
#[derive(Clone, Copy)]
pub struct Sheets<'a> {
    pub p: Modulus,
    pub a: Sheet<'a>,
    pub b: Sheet<'a>,
}

impl<'a> Given<'a> {
    // Degree: a declared degree above 16
    #[tactic(auto, unfolding(scope::specs::Number::too_high))]
    fn too_high(self) -> bool
        ensures { result ≡ (Number.too_high self.entry.m || Number.too_high self.entry.e) }
    {
        too_high(self.m) || too_high(self.e)
    }

    // Length: None for a table of another length than its degrees ask. That they are at most 16 is asked for, since the degrees
    // of both tables are tested before the length of either.
    #[tactic(auto, unfolding(scope::specs::Number::misfit, scope::specs::Pair::size))]
    pub fn fitting(self) -> Option<Sheet<'a>>
        requires m_low { self.m ≤ 16 }
        requires e_low { self.e ≤ 16 }
        ensures none { is_none result ≡ Number.misfit self.entry.m self.entry.e self.entry.entries.now }
        ensures some { IfSome result (λ t. t.given ≡ self.entry) }
    {
        if self.entries.len() != ((self.m + 1) * (self.e + 1)) as usize {
            return None;
        }
        Some(Sheet { given: self })
    }
}

impl Sheet<'_> {
    // Lead: the leading row is zero
    pub fn no_lead(self) -> bool
        ensures { result ≡ Number.no_lead self.entry.given.m self.entry.given.e self.entry.given.entries.now }
    {
        let Given { m, e, entries } = self.given;
        entries[(m * (e + 1)) as usize..].iter().all(|x| *x == 0)
    }
}

// What is refused of a modulus: Range, Composite
#[tactic(auto, using(crate::proofs::Chain::chain), unfolding(crate::specs::Parts::modulus_number))]
fn modulus(p: u32) -> Result<Modulus, Refusal>
    ensures number { outcome result ≡ modulus_number p }
    ensures ok { IfOk result (λ q. q.value ≡ p) }
{
    if outside(p) {
        return Err(Refusal::Range);
    }
    Modulus::new(p).ok_or(Refusal::Composite)
}

// What is refused of the lengths of two rows: Degree, Length
#[tactic(auto, using(crate::proofs::Chain::chain), unfolding(crate::specs::Parts::lengths_number))]
fn lengths(a: &[u32], b: &[u32]) -> Result<(), Refusal>
    ensures { outcome result ≡ lengths_number a.now b.now }
{
    if too_long(a) || too_long(b) {
        return Err(Refusal::Degree);
    }
    if empty(a) || empty(b) {
        return Err(Refusal::Length);
    }
    Ok(())
}

// What is refused of the entries of two rows: Entry, Lead
#[tactic(auto, using(crate::proofs::Chain::chain), unfolding(crate::specs::Parts::entries_number))]
fn entries(p: u32, a: &[u32], b: &[u32]) -> Result<(), Refusal>
    ensures { outcome result ≡ entries_number p a.now b.now }
{
    if over(p, a) || over(p, b) {
        return Err(Refusal::Entry);
    }
    if unended(a) || unended(b) {
        return Err(Refusal::Lead);
    }
    Ok(())
}

// What is refused of the rows of a division: Degree, Entry, Divisor. The order is another than that of two rows, and so are
// the tests.
#[tactic(auto, using(crate::proofs::Chain::chain), unfolding(crate::specs::Parts::division_rows_number))]
fn division_rows(p: u32, row: &[u32], b: &[u32]) -> Result<(), Refusal>
    ensures { outcome result ≡ division_rows_number p row.now b.now }
{
    if too_long(row) || too_long(b) {
        return Err(Refusal::Degree);
    }
    if over(p, row) || over(p, b) {
        return Err(Refusal::Entry);
    }
    if unended(b) {
        return Err(Refusal::Divisor);
    }
    Ok(())
}

// The row resultant: 2 to 7
#[tactic(auto, using(crate::proofs::Chain::chain, crate::specs::Parts::row_parts))]
pub fn row(p: u32, a: &[u32], b: &[u32]) -> Result<Modulus, Refusal>
    ensures number { outcome result ≡ Number.row_number p a.now b.now }
    ensures ok { IfOk result (λ q. q.value ≡ p) }
{
    let q = modulus(p)?;
    lengths(a, b)?;
    entries(p, a, b)?;
    Ok(q)
}

// The plain determinant: the same, then 17. Rows of degrees m and n have m + n + 2 entries.
#[tactic(auto, using(crate::proofs::Chain::chain, crate::proofs::Tests::degrees_length), unfolding(scope::specs::Number::plain_number))]
pub fn plain(p: u32, a: &[u32], b: &[u32]) -> Result<Modulus, Refusal>
    ensures number { outcome result ≡ Number.plain_number p a.now b.now }
    ensures ok { IfOk result (λ q. q.value ≡ p) }
{
    let q = row(p, a, b)?;
    if 8 < a.len() + b.len() {
        return Err(Refusal::Large);
    }
    Ok(q)
}

// Division in the work row: 2, 3, 4, 6, 15
#[tactic(auto, using(crate::proofs::Chain::chain, crate::specs::Parts::division_parts))]
pub fn division(p: u32, row: &[u32], b: &[u32]) -> Result<Modulus, Refusal>
    ensures number { outcome result ≡ Number.division_number p row.now b.now }
    ensures ok { IfOk result (λ q. q.value ≡ p) }
{
    let q = modulus(p)?;
    division_rows(p, row, b)?;
    Ok(q)
}

// Opening: 2 to 7
#[tactic(auto, using(crate::proofs::Chain::chain, crate::specs::Parts::shape_parts), unfolding(scope::specs::Number::too_high, crate::specs::Parts::tables_number))]
pub fn shape<'a>(p: u32, a: Given<'a>, b: Given<'a>) -> Result<Sheets<'a>, Refusal>
    ensures number { outcome result ≡ shape_number p a.entry.m a.entry.e b.entry.m b.entry.e a.entry.entries.now b.entry.entries.now }
    ensures ok { IfOk result (λ s. (s.p.value ≡ p) × (s.a.given ≡ a.entry) × (s.b.given ≡ b.entry)) }
{
    let modulus = modulus(p)?;
    if a.too_high() || b.too_high() {
        return Err(Refusal::Degree);
    }
    let (Some(sheet_a), Some(sheet_b)) = (a.fitting(), b.fitting()) else {
        return Err(Refusal::Length);
    };
    if over(p, a.entries) || over(p, b.entries) {
        return Err(Refusal::Entry);
    }
    if sheet_a.no_lead() || sheet_b.no_lead() {
        return Err(Refusal::Lead);
    }
    Ok(Sheets {
        p: modulus,
        a: sheet_a,
        b: sheet_b,
    })
}
