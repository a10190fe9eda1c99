// Reading a file into a lent matrix and lent lists of weights, names and branch records.
ghost use Rattle.std.specs.Prelude.{◌≡◌, true, length};
ghost use Rattle.matrix_form.specs.Outcomes.{value};
ghost use Rattle.file_form.specs.Reading.{job_in, read_answer};
ghost use Rattle.file_form.specs.Calls.{with_header, full_size, ReadDone};
ghost use Rattle.file_form.specs.Written.{lent, job_written};

use crate::NAMES_SIZE;
use crate::writing::{write_codes, write_name, write_pieces, write_record, write_weights};
use file_form::NAME_SIZE;
use file_form::answer::Refused;
use file_form::header::Header;
use file_header::header::header_lines;
use file_questions::branches::branch_count;
use file_questions::judging::ask_file;
use file_text::bytes::{behind_lines, behind_piece};
use matrix::{COLUMNS, MATRIX_SIZE};
use matrix_form::refusal::Refusal;
use text_form::LINE_FEED;
use tree_records::numbers::{LENT_NUMBERS, RECORD};

// The lengths of the matrix, the weights, the names and the branches that are lent.
const FULL_SIZES: [usize; 4] = [MATRIX_SIZE, COLUMNS, NAMES_SIZE, LENT_NUMBERS];

// Writes what an accepted file says, which has this header, into lists of full size.
// Kept: no plainer, each promise of a struct of lists to be written would have to say that it lends the same ones still, as `Puts` does of a listing.
fn write_job(
    file: &[u8],
    header: Header,
    matrix: &mut [i32],
    weights: &mut [u8],
    names: &mut [u8],
    branches: &mut [usize],
)
    requires answered { value header ≡ with_header (read_answer file.now) }
    requires full_sizes { full_size (length matrix.old) (length weights.old) (length names.old) (length branches.old) ≡ true }
    ensures { lent matrix.new weights.new names.new branches.new
        ≡ job_written (job_in file.now)
        (lent matrix.old weights.old names.old branches.old) }
{
    let n = header.n;
    let kind = header.kind;
    let rows = behind_lines(file, header_lines(header));
    write_pieces(matrix, COLUMNS, rows, LINE_FEED, n, write_codes);
    write_weights(weights, behind_piece(file, LINE_FEED), header);
    write_pieces(names, NAME_SIZE, rows, LINE_FEED, n, write_name);
    let behind = behind_lines(rows, n);
    write_pieces(
        branches,
        RECORD,
        behind,
        LINE_FEED,
        branch_count(kind, n),
        write_record,
    );
}

// Reads a file: an accepted one is written into the matrix, the weights, the names and the branches; a refused one leaves the four as they
// were.
// Kept: no plainer, each promise of a struct of lists to be written would have to say that it lends the same ones still, as `Puts` does of a listing.
pub fn read(
    file: &[u8],
    matrix: &mut [i32],
    weights: &mut [u8],
    names: &mut [u8],
    branches: &mut [usize],
) -> Result<Header, Refused>
    ensures { ReadDone file.now
        (lent matrix.old weights.old names.old branches.old)
        (lent matrix.new weights.new names.new branches.new) result }
{
    if [matrix.len(), weights.len(), names.len(), branches.len()] != FULL_SIZES {
        return Err(Refused {
            refusal: Refusal::ListSize,
            line: 0,
        });
    }
    let header = ask_file(file)?;
    write_job(file, header, matrix, weights, names, branches);
    Ok(header)
}
