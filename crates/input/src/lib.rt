// Reading into lent bytes, and how many items of a list are as they were lent.
#![tactic(auto)]

ghost use Rattle.std.specs.Prelude.{◌≡◌, ◌≤◌, ◌<◌, ◌^◌, length, IfSome};
ghost use Rattle.std.specs.List.{count_by};

use std::io::Read;

// A case of a test program has at most so many bytes.
pub const MOST_READ: usize = 65536;

// A test program reads at most so many cases.
pub const MOST_CASES: usize = 10000;

// Kept: no plainer, it hands out a count as std's own `read` does, which tells as well that the input ended.
// Reads until the lent bytes are full, the input ends or a read fails, and returns how many bytes it put at their front.
pub fn read_full(reader: &mut impl Read, bytes: &mut [u8]) -> usize
    ensures bound { result ≤ length bytes.new }
    ensures same_length { length bytes.new ≡ length bytes.old }
{
    let mut got = 0;
    // Kept: no plainer, each read is lent the bytes behind those that are full, and how many it fills the reader says.
    while got < bytes.len() {
        match reader.read(&mut bytes[got..]) {
            Ok(0) | Err(_) => break,
            Ok(more) => got += more,
        }
    }
    got
}

// The number that three bytes say, the highest first.
fn number(bytes: [u8; 3]) -> usize
    ensures { result < 2 ^ 24 }
{
    let [high, middle, low] = bytes;
    u32::from_be_bytes([0, high, middle, low]) as usize
}

// Reads a number in three bytes, the highest first.
pub fn read_number(reader: &mut impl Read) -> Option<usize>
    ensures { IfSome result (λ number. number < 2 ^ 24) }
{
    let mut bytes = [0; 3];
    if read_full(reader, &mut bytes) < bytes.len() {
        return None;
    }
    Some(number(bytes))
}

// Kept: no plainer, `read_case` of edges wants the count alone, since its file goes on behind it: of a slice it would take the length.
// Reads a number, and so many bytes behind it to the front of the lent ones, if these have room and the input has so many.
pub fn read_counted(reader: &mut impl Read, bytes: &mut [u8]) -> Option<usize>
    ensures bound { IfSome result (λ count. count ≤ length bytes.new) }
    ensures same_length { length bytes.new ≡ length bytes.old }
{
    let count = read_number(reader)?;
    if bytes.len() < count {
        return None;
    }
    if read_full(reader, &mut bytes[..count]) < count {
        return None;
    }
    Some(count)
}

// How many items of a list are as they were lent.
pub fn unchanged<T: PartialEq>(list: &[T], lent: &T) -> usize
    ensures { result ≡ count_by (λ item. T.eq item lent.now) list.now }
{
    list.iter().filter(|item| *item == lent).count()
}
