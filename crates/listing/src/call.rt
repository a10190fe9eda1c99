// From a file's bytes to the bytes of its listing.
ghost use Rattle.std.specs.Prelude.{◌≡◌, replicate};
ghost use Rattle.matrix_form.specs.Shape.{columns};
ghost use Rattle.lines.specs.Puts.{Puts};
ghost use Rattle.listing_form.specs.Listing.{output};
ghost use Rattle.listing_form.specs.Calls.{ListDone};

use crate::job::{Lists, Room, put_job};
use fitting::ranges::Ranges;
use lines::put::Listing;
use matrix::refusal::number;
use matrix::{COLUMNS, LIGHTEST, MATRIX_SIZE};
use matrix_file::NAMES_SIZE;
use matrix_file::reading::read;
use matrix_form::refusal::Refusal;
use tree_records::numbers::LENT_NUMBERS;

// So many bytes are lent for what is printed; no file needs more.
pub const OUTPUT_SIZE: usize = 1048576;

// Puts what is printed for a file: its listing, or the line of its refusal. The file is read into lists, whose weights are 1 before.
fn put_file(listing: &mut Listing, file: &[u8], room: &mut Room)
    requires { room.old.lists.weights ≡ replicate columns 1 }
    ensures { Puts (output file.now) listing.old listing.new }
{
    let lists = &mut room.lists;
    match read(
        file,
        &mut lists.matrix,
        &mut lists.weights,
        &mut lists.names,
        &mut lists.branches,
    ) {
        Ok(header) => put_job(listing, header, room),
        Err(refused) => listing.put_refusal_line(number(refused.refusal), refused.line),
    }
}

// The listing of a file's bytes, or the line of its refusal, written into the front of lent bytes: how many bytes are written. Refused if
// these are not 1,048,576.
pub fn list(file: &[u8], out: &mut [u8]) -> Result<usize, Refusal>
    ensures { ListDone file.now out.old out.new result }
{
    if out.len() != OUTPUT_SIZE {
        return Err(Refusal::ListSize);
    }
    let mut room = Room {
        lists: Lists {
            matrix: [0; MATRIX_SIZE],
            weights: [0; COLUMNS],
            names: [0; NAMES_SIZE],
            branches: [0; LENT_NUMBERS],
        },
        ranges: Ranges {
            low: [0; MATRIX_SIZE],
            high: [0; MATRIX_SIZE],
            chosen: [0; MATRIX_SIZE],
        },
    };
    // A weight that no line says is 1; zeros come first, so that the whole room is filled where it stands.
    room.lists.weights.fill(LIGHTEST);
    let mut listing = Listing { out, at: 0 };
    put_file(&mut listing, file, &mut room);
    Ok(listing.at)
}
