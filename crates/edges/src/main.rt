// Lists the files of data/cases one after another through the exported call and prints what it writes; where that is long, how many bytes
// and their checksum. Behind each file stands how many of the lent bytes are as they were lent.
// Before them stand calls that are lent bytes of another number than the full size.
// A case is the length of the file and the number of bytes that are unchanged of it, each in three bytes, the highest first, and then these
// bytes; the file goes on with `x` up to its length.
#![tactic(auto)]

ghost use Rattle.std.specs.Prelude.{◌≡◌, ◌≤◌, length, IfSome};

use exports::calls::wagner_list;
use input::{MOST_CASES, MOST_READ, read_counted, read_number, unchanged};
use listing::call::OUTPUT_SIZE;
use std::io::Read;
use std::rt::Files;
use std::{fs, io};

// What the lent bytes hold before a call: no byte of a listing.
const LENT: u8 = 255;

// The most bytes that are printed whole.
const MOST_PRINTED: usize = 1500;

// Prints how many of the lent bytes are as they were lent.
fn print_unchanged(rt: &impl Print, lent: &[u8]) -> io::Result<()> {
    println!(rt; "k\t{}", unchanged(lent, &LENT))
}

// The number below which the sums of the checksum Adler-32 stay.
const ADLER: u64 = 65521;

// The checksum Adler-32 of a text: the sum of its bytes, and the sum of these sums.
fn checksum(text: &[u8]) -> u64 {
    let (plain, weighted) = text
        .iter()
        .fold((1, 0), |(plain, weighted): (u64, u64), byte| {
            let plain = plain.wrapping_add(u64::from(*byte)) % ADLER;
            (plain, weighted.wrapping_add(plain) % ADLER)
        });
    weighted.wrapping_mul(65536).wrapping_add(plain)
}

// Prints a text, or its length and checksum.
fn print_text(rt: &impl Print, text: &[u8]) -> io::Result<()> {
    if text.len() <= MOST_PRINTED {
        return rt.write_all(text);
    }
    println!(rt; "L\t{}\t{}", text.len(), checksum(text))
}

// Prints what the call writes for a file, and how many of the lent bytes stay; they are then as before.
fn print_file(rt: &impl Print, file: &[u8], out: &mut [u8]) -> io::Result<()> {
    let listed = wagner_list(file, out);
    print_text(rt, &out[..listed.length])?;
    print_unchanged(rt, out)?;
    out.fill(LENT);
    Ok(())
}

// Prints what the call answers to bytes of another number than the full size, and how many of these stay.
fn print_refused(rt: &impl Print, out: &mut [u8]) -> io::Result<()> {
    let listed = wagner_list(b"W\t1\t1\nA\t0\n", out);
    println!(rt; "R\t{}\t{}", listed.refusal, listed.length)?;
    print_unchanged(rt, out)
}

// Lends few bytes, one byte less than the full size, and one more.
fn print_other_sizes(rt: &(impl Print + AllocGlobal)) -> io::Result<()> {
    for size in [40, OUTPUT_SIZE - 1, OUTPUT_SIZE + 1] {
        let mut out = vec![in rt.alloc(); LENT; size]?;
        print_refused(rt, &mut out)?;
    }
    Ok(())
}

// Reads a case into the front of bytes that then go on with `x`: the length of its file, if there is one and it has room.
fn read_case(cases: &mut impl Read, file: &mut [u8]) -> Option<usize>
    ensures bound { IfSome result (λ size. size ≤ length file.new) }
    ensures same_length { length file.new ≡ length file.old }
{
    let size = read_number(cases)?;
    file.fill(b'x');
    let read = read_counted(cases, file)?;
    if !(read..=file.len()).contains(&size) {
        return None;
    }
    Some(size)
}

// Prints the listings of all cases.
fn print_cases(rt: &(impl Print + Files), out: &mut [u8]) -> io::Result<()> {
    let mut cases = fs::open(rt, "cases")?;
    let mut file = [0u8; MOST_READ];
    // Kept: no plainer, a `loop` would need a proof that the file of cases ends, and one loop in `input` for edges and read_files would take a closure, with a `requires`.
    for _ in 0..MOST_CASES {
        let Some(size) = read_case(&mut cases, &mut file) else {
            break;
        };
        print_file(rt, &file[..size], out)?;
    }
    Ok(())
}

// Lends the full size for the listings of all cases.
fn print_listings(rt: &(impl Print + Files + AllocGlobal)) -> io::Result<()> {
    let mut out = vec![in rt.alloc(); LENT; OUTPUT_SIZE]?;
    print_cases(rt, &mut out)
}

fn main(rt: HostRuntime) -> io::Result<()> {
    print_other_sizes(&rt)?;
    print_listings(&rt)
}
