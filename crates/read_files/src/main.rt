// Reads the files of data/cases one after another and prints what was read, or the refusal and its line.
// A case is its length in three bytes, the highest first, and then its bytes.
// Before them stand four reads into lists that have not their full size. The weights of an accepted file stand behind `V`, or behind `-`
// where the file has no `V` line. The branch records of an `F` file stand behind its rows, as they were written: `C`, node, ancestor,
// length. Behind each case stands how many codes, weights, name bytes and numbers of branch records are as they were lent.
#![tactic(auto)]

ghost use Rattle.std.specs.Prelude.{◌≤◌};

use file_form::NAME_SIZE;
use file_form::answer::Refused;
use file_form::header::{Header, Kind};
use input::{MOST_CASES, MOST_READ, read_counted, unchanged};
use matrix::questions::in_range;
use matrix::refusal::number;
use matrix::rows::row;
use matrix::{COLUMNS, MATRIX_SIZE};
use matrix_file::NAMES_SIZE;
use matrix_file::reading::read;
use std::{fs, io};
use tree_form::order::Order;
use tree_records::lent::record_count;
use tree_records::numbers::{LENT_NUMBERS, RECORD};

// What the lent lists hold before a read: no code, neither a weight nor a byte of a name, and no number of a branch record.
const NO_CODE: i32 = 7777;

const NO_BYTE: u8 = 255;

const NO_NUMBER: usize = 7777;

// The lists that a file was read into.
// Kept: no plainer, the `Lists` of listing own lists of full size, and these lend lists of any.
#[derive(Clone, Copy)]
struct Lists<'a> {
    matrix: &'a [i32],
    weights: &'a [u8],
    names: &'a [u8],
    branches: &'a [usize],
}

// Prints a code behind a tab, or a mark where it is no code of a matrix.
fn print_code(rt: &impl Print, code: i32) -> io::Result<()> {
    if !in_range(code) {
        return print!(rt; "\t?");
    }
    print!(rt; "\t{code}")
}

// Prints codes, each behind a tab, and a line feed.
fn print_codes(rt: &impl Print, codes: &[i32]) -> io::Result<()> {
    for code in codes {
        print_code(rt, *code)?;
    }
    println!(rt; "")
}

// Prints a name without the zeros behind it.
fn print_name(rt: &impl Print, name: &[u8]) -> io::Result<()> {
    rt.write_all(name.split(|byte| *byte == 0).next().unwrap_or(&[]))
}

// Prints the rows of n taxa: the name of each and its codes.
fn print_rows(rt: &impl Print, lists: &Lists, n: usize, m: usize) -> io::Result<()> {
    for (i, name) in lists.names.chunks(NAME_SIZE).take(n).enumerate() {
        print_name(rt, name)?;
        print_codes(rt, row(lists.matrix, m, i + 1))?;
    }
    Ok(())
}

// Prints the first m weights, each behind a tab, and a line feed.
fn print_weights(rt: &impl Print, weights: &[u8], m: usize) -> io::Result<()> {
    for weight in weights.iter().take(m) {
        print!(rt; "\t{weight}")?;
    }
    println!(rt; "")
}

// Prints the branch records of n taxa, as they stand.
fn print_records(rt: &impl Print, branches: &[usize], n: usize) -> io::Result<()> {
    for record in branches.chunks(RECORD).take(record_count(n)) {
        print!(rt; "C")?;
        for number in record {
            print!(rt; "\t{number}")?;
        }
        println!(rt; "")?;
    }
    Ok(())
}

// The word of a kind.
// Kept: no plainer, crate file_form has no function (docs/DECISIONS.md 98), and a method or `Display` of `Kind` would be its first.
fn kind_word(kind: Kind) -> &'static str {
    match kind {
        Kind::Wagner => "W",
        Kind::Own => "F",
    }
}

// The field of the word for the order: a tab and the word, if line 1 carries one.
// Kept: no plainer, no other program prints the word, and beside a `Display` of `Order` in branching a `match` here would still put the tab or nothing.
fn order_field(order: Option<Order>) -> &'static str {
    match order {
        None => "",
        Some(Order::Advance) => "\tadvance",
        Some(Order::Closest) => "\tclosest",
    }
}

// Prints an accepted file: its header, its weights, its rows, and of an `F` file the branch records that it brings.
fn print_accepted(rt: &impl Print, header: &Header, lists: &Lists) -> io::Result<()> {
    let kind = kind_word(header.kind);
    let order = order_field(header.order);
    println!(rt; "{kind}\t{}\t{}{order}", header.n, header.m)?;
    print!(rt; "{}", if header.weighed { "V" } else { "-" })?;
    print_weights(rt, lists.weights, header.m)?;
    print_rows(rt, lists, header.n, header.m)?;
    if header.kind == Kind::Own {
        print_records(rt, lists.branches, header.n)?;
    }
    Ok(())
}

// Prints what a read answered, and what it left of the lists.
fn print_answer(rt: &impl Print, answer: Result<Header, Refused>, lists: &Lists) -> io::Result<()> {
    match answer {
        Err(refused) => println!(rt; "R\t{}\t{}", number(refused.refusal), refused.line)?,
        Ok(header) => print_accepted(rt, &header, lists)?,
    }
    let codes = unchanged(lists.matrix, &NO_CODE);
    let weights = unchanged(lists.weights, &NO_BYTE);
    let names = unchanged(lists.names, &NO_BYTE);
    let numbers = unchanged(lists.branches, &NO_NUMBER);
    println!(rt; "k\t{codes}\t{weights}\t{names}\t{numbers}")
}

// Reads a file into lists of these sizes and prints what was read.
fn print_read<const M: usize, const W: usize, const N: usize, const B: usize>(
    rt: &impl Print,
    file: &[u8],
) -> io::Result<()>
    requires { (M ≤ 65536) × (W ≤ 65536) × (N ≤ 65536) × (B ≤ 65536) }
{
    let mut matrix = [NO_CODE; M];
    let mut weights = [NO_BYTE; W];
    let mut names = [NO_BYTE; N];
    let mut branches = [NO_NUMBER; B];
    let answer = read(file, &mut matrix, &mut weights, &mut names, &mut branches);
    let lists = Lists {
        matrix: &matrix,
        weights: &weights,
        names: &names,
        branches: &branches,
    };
    print_answer(rt, answer, &lists)
}

fn main(rt: HostRuntime) -> io::Result<()> {
    // Names that are a byte too short, a matrix that is a code too long, weights that are one too few, and records that are a number too short.
    print_read::<MATRIX_SIZE, COLUMNS, 1023, LENT_NUMBERS>(&rt, b"")?;
    print_read::<16129, COLUMNS, NAMES_SIZE, LENT_NUMBERS>(&rt, b"W\t1\t1\nA\t0\n")?;
    print_read::<MATRIX_SIZE, 127, NAMES_SIZE, LENT_NUMBERS>(&rt, b"W\t1\t1\nV\t2\nA\t0\n")?;
    print_read::<MATRIX_SIZE, COLUMNS, NAMES_SIZE, 374>(&rt, b"F\t2\t1\nA\t0\nB\t1\nC\t2\t1\n")?;
    let mut cases = fs::open(&rt, "cases")?;
    let mut file = [0u8; MOST_READ];
    // Kept: no plainer, a `loop` would need a proof that the file of cases ends, and one loop in `input` for edges and read_files would take a closure, with a `requires`.
    for _ in 0..MOST_CASES {
        let Some(length) = read_counted(&mut cases, &mut file) else {
            break;
        };
        print_read::<MATRIX_SIZE, COLUMNS, NAMES_SIZE, LENT_NUMBERS>(&rt, &file[..length])?;
    }
    Ok(())
}
