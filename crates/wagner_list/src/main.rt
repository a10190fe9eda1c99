// The program: a matrix file on standard input, its listing or the line of its refusal on standard output, and nothing else.
// Kept: no plainer, a file and the bytes lent for its listing are two lists of bytes of different use.
#![tactic(auto)]

use exports::calls::wagner_list;
use file_form::MOST_BYTES;
use input::read_full;
use listing::call::OUTPUT_SIZE;
use std::io;

// One byte more than a file may have: enough to know that it is too long.
const READ_SIZE: usize = MOST_BYTES + 1;

// Reads a file into one lent list, writes what is printed for it into the other, and prints that.
fn run(rt: &(impl Input + Print), file: &mut [u8], out: &mut [u8]) -> io::Result<()> {
    let got = read_full(&mut rt.reader(), file);
    let listed = wagner_list(&file[..got], out);
    rt.write_all(&out[..listed.length])
}

fn main(rt: HostRuntime) -> io::Result<()> {
    let mut file = vec![in rt.alloc(); 0u8; READ_SIZE]?;
    let mut out = vec![in rt.alloc(); 0u8; OUTPUT_SIZE]?;
    run(&rt, &mut file, &mut out)
}
