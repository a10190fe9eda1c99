// What the exported calls hand back: the number of the refusal, or 0, and what was asked for.
ghost use Rattle.std.specs.Prelude.{◌≡◌};
ghost use Rattle.matrix_form.specs.Outcomes.{result_says};
ghost use Rattle.file_form.specs.Calls.{read_says};
ghost use Rattle.listing_form.specs.Calls.{listed_says};
ghost use Rattle.export_form.specs.Answers.{file_read, indexed, kind_number, listed, measured, order_read};

use crate::orders::order_number;
use consistency_form::index::Index;
use export_form::answers::{FileRead, Indexed, Listed, Measured};
use file_form::answer::Refused;
use file_form::header::{Header, Kind};
use listing::order::order_meant;
use matrix::refusal::number;
use matrix_form::refusal::Refusal;
use tree_form::order::Order;

// The number of a kind of file: 1 for `W`, 2 for `F`.
// Kept: interface, the numbers are C's; as `From<Kind>` they would have to stand in file_form, which knows nothing of C.
fn kind_number(kind: Kind) -> u64
    ensures { result ≡ kind_number kind }
{
    match kind {
        Kind::Wagner => 1,
        Kind::Own => 2,
    }
}

// The number of the order of placing that a file means: 0 for an `F` file.
// Kept: interface, the numbers are C's; as a method of `Header` it would have to stand in file_form, which knows nothing of C.
fn order_read(kind: Kind, word: Option<Order>) -> u64
    ensures { result ≡ order_read kind word }
{
    match kind {
        Kind::Wagner => order_number(order_meant(word)),
        Kind::Own => 0,
    }
}

// How many bytes were written, or the refusal.
// Kept: no plainer, as a `Measured` each caller would cast the count before it cuts its list; one body for this and `measured` would hand back a pair, with a definition of its own.
pub(crate) fn listed(answer: Result<usize, Refusal>) -> Listed
    ensures { result ≡ listed (listed_says answer) }
{
    match answer {
        Ok(length) => Listed { refusal: 0, length },
        Err(refusal) => Listed {
            refusal: number(refusal),
            length: 0,
        },
    }
}

// The header of an accepted file, or the refusal and its line.
pub(crate) fn file_read(answer: Result<Header, Refused>) -> FileRead
    ensures { result ≡ file_read (read_says answer) }
{
    match answer {
        Ok(header) => FileRead {
            refusal: 0,
            line: 0,
            kind: kind_number(header.kind),
            n: header.n,
            m: header.m,
            order: order_read(header.kind, header.order),
        },
        Err(refused) => FileRead {
            refusal: number(refused.refusal),
            line: refused.line,
            ..FileRead::default()
        },
    }
}

// A length, or the refusal.
pub(crate) fn measured(answer: Result<u64, Refusal>) -> Measured
    ensures { result ≡ measured (result_says answer) }
{
    match answer {
        Ok(length) => Measured { refusal: 0, length },
        Err(refusal) => Measured {
            refusal: number(refusal),
            length: 0,
        },
    }
}

// An index, that there is none, or the refusal.
pub(crate) fn indexed(answer: Result<Option<Index>, Refusal>) -> Indexed
    ensures { result ≡ indexed (result_says answer) }
{
    match answer {
        Ok(Some(index)) => Indexed {
            refusal: 0,
            divided: 1,
            quotient: index.quotient,
            remainder: index.remainder,
        },
        Ok(None) => Indexed::default(),
        Err(refusal) => Indexed {
            refusal: number(refusal),
            ..Indexed::default()
        },
    }
}
