// The program of document 01: a query and a fabric on standard input, the answer as text. What the input asks is in `input`.
#![tactic(auto)]

ghost use Rattle.std.specs.Prelude.{◌≤◌, length, IfOk};

use std::cmp::min;
use std::io;
use std::io::{Input, Print, Read};

// Reads until the buffer is full or the input ends, and returns how many bytes were read: a read says only then how far it got, so this is
// no `for`, and std's way to read all allocates.
fn read_full<R: Read>(reader: &mut R, buf: &mut [u8]) -> io::Result<usize>
    ensures { IfOk result (λ n. n ≤ length buf.new) }
{
    let mut n: usize = 0;
    while n < buf.len() {
        let more = reader.read(&mut buf[n..])?;
        if more == 0 {
            break;
        }
        n += more;
    }
    Ok(n)
}

// `ok N` and N words, eight lower-case hex digits a line.
fn put_words(rt: &impl Print, area: &[u8], n: usize) -> io::Result<()> {
    println!(rt; "ok {n}")?;
    for k in 0..min(n, area.len() / 4) {
        println!(rt; "{:08x}", records::word(area, k))?;
    }
    Ok(())
}

// A word more than the query and the longest fabric, so that a longer input fails question 1 as it should.
fn main(rt: HostRuntime) -> io::Result<()> {
    let mut input = [0u8; 59868];
    let n = read_full(&mut rt.reader(), &mut input)?;
    let mut area = [0u8; 65536];
    match input::call(&input[..n], &mut area) {
        Ok(words) => put_words(&rt, &area, words as usize),
        Err(no) => println!(rt; "no {} at {}", no.refusal.number(), no.place),
    }
}
