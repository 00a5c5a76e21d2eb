// Runs the row calls on the scope's figures and at the edges of what they accept, and prints what they answer.
#![tactic(auto)]

use std::{fmt, io};

// Numbers, each after a space.
#[derive(Clone, Copy)]
struct Numbers<'a>(&'a [u32]);

impl fmt::Display for Numbers<'_> {
    fn fmt<W: fmt::Write>(&self, f: &mut fmt::Formatter<W>) -> fmt::Result {
        for number in self.0 {
            write!(f, " {number}")?;
        }
        Ok(())
    }
}

// The entries of a row, after a colon.
fn entries<P: Print>(rt: &P, r: &[u32]) -> io::Result<()> {
    print!(rt; " :{}", Numbers(r))
}

// What a call answered, as its numbers: a line in one write.
fn answer<P: Print>(rt: &P, name: &str, call: &str, numbers: &[u32]) -> io::Result<()> {
    println!(rt; "{name} {call}{}", Numbers(numbers))
}

fn resultant<P: Print>(rt: &P, name: &str, p: u32, a: &[u32], b: &[u32]) -> io::Result<()> {
    let r = kernel::row_resultant(p, a, b);
    answer(rt, name, "resultant", &[r.number, r.value, r.steps])
}

// The work row is shown before and after, so that a refusal is seen to leave it.
fn division<P: Print>(rt: &P, name: &str, p: u32, row: &mut [u32], b: &[u32]) -> io::Result<()> {
    print!(rt; "{name} division")?;
    entries(rt, &row[..])?;
    let r = kernel::divide(p, row, b);
    print!(rt; " {} {}", r.number, r.count)?;
    entries(rt, &row[..])?;
    println!(rt; "")
}

fn divisor<'a, P: Print>(rt: &P, name: &str, a: &'a [u32], b: &'a [u32]) -> io::Result<()> {
    let r = kernel::divisor(a, b);
    print!(rt; "{name} divisor")?;
    entries(rt, r)?;
    println!(rt; "")
}

fn both<P: Print>(rt: &P, name: &str, p: u32, a: &[u32], b: &[u32]) -> io::Result<()> {
    resultant(rt, name, p, a, b)?;
    let r = kernel::plain_determinant(p, a, b);
    answer(rt, name, "plain", &[r.number, r.value])
}

fn figures<P: Print>(rt: &P) -> io::Result<()> {
    both(rt, "K2", 7, &[1, 0, 0, 1], &[5, 1])?;
    both(rt, "K3", 7, &[5, 1], &[1, 0, 0, 1])?;
    both(rt, "K4", 5, &[1, 0, 0, 0, 1], &[1, 0, 1])?;
    both(rt, "K5", 7, &[6, 0, 1], &[6, 1])?;
    both(rt, "K6", 7, &[3], &[4])?;
    both(rt, "K7", 7, &[3], &[1, 0, 1])?;
    Ok(())
}

fn moduli<P: Print>(rt: &P) -> io::Result<()> {
    both(rt, "p=0", 0, &[1, 1], &[1])?;
    both(rt, "p=1", 1, &[1, 1], &[1])?;
    both(rt, "p=2^31", 2147483648, &[1, 1], &[1])?;
    both(rt, "p=9", 9, &[1, 1], &[1])?;
    both(rt, "p=2", 2, &[1, 1], &[1, 1])?;
    both(rt, "p=2147483647", 2147483647, &[2, 3], &[5, 7])?;
    Ok(())
}

fn shapes<P: Print>(rt: &P) -> io::Result<()> {
    let long = [1u32; 17];
    let longer = [1u32; 18];
    both(rt, "17 entries", 7, &long, &[1, 1])?;
    both(rt, "18 entries", 7, &longer, &[1, 1])?;
    both(rt, "empty", 7, &[], &[1, 1])?;
    resultant(rt, "empty beside 18", 7, &[], &longer)?;
    both(rt, "entry p-1", 7, &[6, 1], &[1, 1])?;
    both(rt, "entry p", 7, &[7, 1], &[1, 1])?;
    both(rt, "last entry 0", 7, &[1, 0], &[1, 1])?;
    resultant(rt, "last 0 beside entry p", 7, &[1, 0], &[7, 1])?;
    both(rt, "m+n=6", 7, &[1, 2, 3, 4], &[5, 6, 0, 1])?;
    both(rt, "m+n=7", 7, &[1, 2, 3, 4], &[5, 6, 0, 0, 1])?;
    Ok(())
}

fn divisions<P: Print>(rt: &P) -> io::Result<()> {
    division(rt, "by x+5", 7, &mut [1, 0, 0, 1], &[5, 1])?;
    division(rt, "by a constant", 7, &mut [1, 2, 3], &[3])?;
    division(rt, "top entries 0", 7, &mut [1, 2, 0, 0], &[1, 1])?;
    division(rt, "not longer", 7, &mut [1, 2], &[1, 1, 1])?;
    division(rt, "empty row", 7, &mut [], &[1, 1])?;
    division(rt, "p=1", 1, &mut [1, 2], &[1, 1])?;
    division(rt, "p=9", 9, &mut [1, 2], &[1, 1])?;
    division(rt, "18 entries", 7, &mut [1u32; 18], &[1, 1])?;
    division(rt, "entry p", 7, &mut [1, 7], &[1, 1])?;
    division(rt, "empty divisor", 7, &mut [1, 2], &[])?;
    division(rt, "empty divisor beside entry p", 7, &mut [1, 7], &[])?;
    division(rt, "divisor ends in 0", 7, &mut [1, 2], &[1, 0])?;
    Ok(())
}

fn divisors<P: Print>(rt: &P) -> io::Result<()> {
    divisor(rt, "lower first", &[1, 2], &[3, 4, 5])?;
    divisor(rt, "lower second", &[1, 2, 3], &[3, 4])?;
    divisor(rt, "tie", &[1, 2], &[3, 4])?;
    divisor(rt, "cut", &[1, 2, 0, 0], &[3, 4, 5])?;
    divisor(rt, "all zero", &[0, 0, 0], &[3])?;
    divisor(rt, "both zero", &[0], &[0, 0])?;
    divisor(rt, "empty", &[], &[1])?;
    divisor(rt, "large entries", &[4294967295, 0], &[4294967295, 1])?;
    Ok(())
}

fn main(rt: HostRuntime) -> io::Result<()> {
    figures(&rt)?;
    moduli(&rt)?;
    shapes(&rt)?;
    divisions(&rt)?;
    divisors(&rt)
}
