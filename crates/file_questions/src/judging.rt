// The questions put to a file, in order.
// Kept: no plainer, four functions of the crate ask for at most 64 taxa: as a ghost field of `Header` the definition `header_in`, which makes one of any lines, would owe it.
// Kept: no plainer, a rest of the text goes on from call to call, and the number of its first line is wanted by those that refuse a line.
ghost use Rattle.std.specs.Prelude.{◌≡◌, ◌≤◌, ◌<◌, length, []};
ghost use Rattle.matrix_form.specs.Shape.{most_taxa};
ghost use Rattle.matrix_form.specs.Outcomes.{ask};
ghost use Rattle.text_form.specs.Lines.{lines_of};
ghost use Rattle.file_form.specs.Header.{header_lines};
ghost use Rattle.file_form.specs.Rows.{row_sort};
ghost use Rattle.file_form.specs.Reading.{nothing_more, ask_length, ask_behind, read_answer};
ghost use Rattle.file_form.specs.Calls.{read_says, with_header};
ghost use Rattle.file_questions.specs.Steps.{behind_rows_most, passed_says, left_of, LinesAsked, RestAsked};

use crate::branches::{ask_branches, ask_tree, branch_count};
use file_form::MOST_BYTES;
use file_form::answer::Refused;
use file_form::header::Header;
use file_header::answer::on_line;
use file_header::header::{ask_header, header_lines};
use file_lines::rows::ask_row;
use file_text::bytes::{behind_lines, first_line, first_piece};
use filled::Filled;
use matrix::MOST_TAXA;
use matrix_form::refusal::Refusal;
use text_form::TAB;

// For each row in turn: is there another line, ended by a line feed? Its own questions. Row 1 stands in line `first`. What stands behind
// the last row.
// Kept: no plainer, `split_inclusive` would hand out lines with their line feed, but not what stands behind the last of them.
fn ask_rows(rows: &[u8], header: Header, first: usize) -> Result<&[u8], Refused>
    requires { (header.n ≤ most_taxa) × (first ≤ most_taxa) }
    ensures { LinesAsked (row_sort header) rows.now header.n first (left_of (λ rest. rest.now) result) }
{
    let mut names = Filled::<&[u8], MOST_TAXA>::none(&[]);
    let mut rest = rows;
    for done in 0..header.n {
        let Some((line, behind)) = first_line(rest) else {
            return Err(Refused {
                refusal: Refusal::LineMissing,
                line: first + done,
            });
        };
        on_line(first + done, ask_row(line, header, names.as_slice()))?;
        names.push(first_piece(line, TAB));
        rest = behind;
    }
    Ok(rest)
}

// Does the file end here?
fn ask_end(rest: &[u8]) -> Result<(), Refusal>
    ensures { result ≡ ask (nothing_more (lines_of rest.now)) Refusal.FileGoesOn (Ok tt) }
{
    if !rest.is_empty() {
        return Err(Refusal::FileGoesOn);
    }
    Ok(())
}

// The questions put to what stands behind the rows of a file, from line `line` on: the `C` lines, the end of the file, and whether the
// branching is one.
fn ask_after(rest: &[u8], line: usize, header: Header) -> Result<(), Refused>
    requires { (header.n ≤ most_taxa) × (line ≤ behind_rows_most) }
    ensures { RestAsked rest.now line header result }
{
    let count = branch_count(header.kind, header.n);
    let (tree, behind) = ask_branches(rest, count, line)?;
    on_line(line + count, ask_end(behind))?;
    on_line(0, ask_tree(&tree, header.kind, header.n))
}

// The questions put to what stands behind the header of a file: the rows, and then what stands behind them.
fn ask_behind(file: &[u8], header: Header) -> Result<(), Refused>
    requires within_limits { header.n ≤ most_taxa }
    requires lines_left { header_lines header < length (lines_of file.now) }
    ensures { passed_says header result ≡ with_header (ask_behind header (lines_of file.now)) }
{
    let passed = header_lines(header);
    let rest = ask_rows(behind_lines(file, passed), header, passed + 1)?;
    ask_after(rest, passed + 1 + header.n, header)
}

// The questions put to a file's length.
fn ask_length(file: &[u8]) -> Result<(), Refusal>
    ensures { result ≡ ask_length file.now }
{
    if MOST_BYTES < file.len() {
        return Err(Refusal::FileTooLong);
    }
    if file.is_empty() {
        return Err(Refusal::FileEmpty);
    }
    Ok(())
}

// The questions put to a file: the header of an accepted one, or the refusal with its line.
pub fn ask_file(file: &[u8]) -> Result<Header, Refused>
    ensures { read_says result ≡ with_header (read_answer file.now) }
{
    on_line(0, ask_length(file))?;
    let header = ask_header(file)?;
    ask_behind(file, header)?;
    Ok(header)
}
