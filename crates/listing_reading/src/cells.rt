// The records of a text, each in seven cells: row, value, now, whether there is a capacity key, that
// key, whether there is a sequence key, that key.
ghost use Rattle.std.specs.Prelude.{◌≡◌, ◌≤◌, ◌+◌, length, drop};
ghost use Rattle.std.proofs.lemmas.List.Edits.{sets};
ghost use Rattle.listing_format.specs.Parsing.{lines_of, records_of};
ghost use Rattle.listing_reading.specs.Cells.{flag, cells_of, RecordsAre, Ready};
ghost use Rattle.listing_reading.specs.Lines.{record_of};

use crate::Listed;
use crate::header::after_header;
use crate::lines::read_line;

// Whether a key is there, as a cell.
fn flag(key: Option<usize>) -> usize
    ensures { result ≡ flag key }
{
    match key {
        Some(_) => 1,
        None => 0,
    }
}

fn write_record(cells: &mut [usize], place: usize, numbers: Listed)
    requires { place + 7 ≤ length cells.old }
    ensures { cells.new ≡ sets cells.old place (cells_of (record_of numbers)) }
{
    cells[place..place + 7].copy_from_slice(&[
        numbers.row,
        numbers.value,
        numbers.now,
        flag(numbers.capacity),
        numbers.capacity.unwrap_or(0),
        flag(numbers.sequence),
        numbers.sequence.unwrap_or(0),
    ]);
}

// The lines from a place on, to the end of the bytes. Each takes nine bytes or is the last, so the cells have room.
fn read_lines(bytes: &[u8], from: usize, cells: &mut [usize]) -> Option<usize>
    requires ready { Ready bytes.now cells.old }
    requires from_in_bounds { from ≤ length bytes.now }
    ensures { RecordsAre (lines_of (drop from bytes.now)) cells.old cells.new result }
{
    let mut count: usize = 0;
    let mut at = from;
    while at < bytes.len() {
        let line = read_line(bytes, at)?;
        write_record(cells, count * 7, line.numbers);
        count += 1;
        at = line.next;
    }
    Some(count)
}

// The records of a text, whatever they say.
pub fn read_records(bytes: &[u8], cells: &mut [usize]) -> Option<usize>
    requires { Ready bytes.now cells.old }
    ensures { RecordsAre (records_of bytes.now) cells.old cells.new result }
{
    let from = after_header(bytes)?;
    read_lines(bytes, from, cells)
}
