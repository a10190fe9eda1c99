// The cases of a part, read from a file: a step a line, a word and the numbers behind it, each behind a space.
use crate::shared::generated::fill;
use crate::shared::held::Held;
use crate::shared::weights;
use filled::Filled;
use matrix::rows::write_row;
use matrix::{COLUMNS, LIGHTEST};
use std::rt::Files;
use std::{fs, io};

// A step has at most so many numbers: a node, and the codes of its row.
const MOST_NUMBERS: usize = COLUMNS + 1;

// A number as a count; 0 where it is none.
pub(crate) fn count(number: i32) -> usize {
    usize::try_from(number).unwrap_or(0)
}

// The numbers of a text, each behind a space but the first; what is no number is left out.
fn numbers_of(text: &str) -> Filled<i32, MOST_NUMBERS> {
    let mut numbers = Filled::none(0);
    for number in text.split(' ').filter_map(|word| word.parse().ok()) {
        numbers.push(number);
    }
    numbers
}

// The first numbers as counts; 0 where there are no more.
pub(crate) fn counts_of<const N: usize>(numbers: &[i32]) -> [usize; N] {
    let mut counts = [0; N];
    for (place, number) in counts.iter_mut().zip(numbers) {
        *place = count(*number);
    }
    counts
}

// The weights of the first characters, those of the others 1.
fn weights_of(numbers: &[i32]) -> [u8; COLUMNS] {
    let mut weights = [LIGHTEST; COLUMNS];
    for (weight, number) in weights.iter_mut().zip(numbers) {
        *weight = u8::try_from(*number).unwrap_or(0);
    }
    weights
}

// Writes what a step says of the matrix: `row`, a node and codes; `fill`, a seed and eight codes; `weights`, those of the first characters;
// `generated`, the seed of weights.
fn change(held: &mut Held, word: &str, numbers: &[i32]) {
    if word == "row" {
        if let [v, codes @ ..] = numbers {
            write_row(&mut held.codes, count(*v), codes);
        }
    } else if word == "fill" {
        if let [seed, a, b, c, d, e, f, g, h] = numbers {
            let codes = [*a, *b, *c, *d, *e, *f, *g, *h];
            fill(&mut held.codes, codes, count(*seed) as u64);
        }
    } else if word == "weights" {
        held.weights = weights_of(numbers);
    } else if word == "generated" {
        if let [seed] = numbers {
            held.weights = weights::generated(count(*seed) as u64);
        }
    }
}

// The first items of a list, so many of them as it has.
pub(crate) fn first<T>(list: &[T], size: usize) -> &[T] {
    list.get(..size).unwrap_or(list)
}

// The first items of a list to be written, so many of them as it has.
pub(crate) fn first_mut<T>(list: &mut [T], size: usize) -> &mut [T] {
    let size = size.min(list.len());
    &mut list[..size]
}

// A part, which takes its cases step by step.
pub(crate) trait Steps {
    // The matrix that it holds.
    fn held(&mut self) -> &mut Held;

    // What a step writes beside this matrix, if it is one that writes something; nothing where a part holds no more.
    fn write(&mut self, _: &str, _: &[i32]) {}

    // What a step shows, if it is one that shows something.
    fn show(&mut self, rt: &impl Print, word: &str, numbers: &[i32]) -> io::Result<()>;
}

// Takes a line of the cases.
fn take(rt: &impl Print, part: &mut impl Steps, line: &str) -> io::Result<()> {
    let (word, rest) = line.split_once(' ').unwrap_or((line, ""));
    let numbers = numbers_of(rest);
    change(part.held(), word, numbers.as_slice());
    part.write(word, numbers.as_slice());
    part.show(rt, word, numbers.as_slice())
}

// Takes the steps of a file of cases, one after another.
pub(crate) fn run(
    rt: &(impl Print + Files + Alloc),
    file: &str,
    part: &mut impl Steps,
) -> io::Result<()> {
    let text = fs::read_to_string(rt, file)?;
    for line in text.lines() {
        take(rt, part, line)?;
    }
    Ok(())
}
