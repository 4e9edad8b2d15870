// The lines that the bench program answers with, written into a lent buffer.
ghost use Rattle.std.specs.Prelude.{◌+◌, ◌*◌, ◌<◌, ◌≤◌, ◌≡◌, [], ◌∷◌, length};
ghost use Rattle.number.specs.Decimal.{decimal};
ghost use Rattle.perform.specs.Perform.{line_of, text_of, Written};
ghost use Rattle.perform.specs.Printing.{Stored, marked, rows_to, Counts};

// Writes a number from a place on, and tells the place behind it: the digits of n / 10 first, then the last one.
fn write_number(buf: &mut [u8], at: usize, n: u64) -> usize
    requires { at + length (decimal n) ≤ length buf.old }
    ensures { Stored buf.old at (decimal n) buf.new result }
{
    if n < 10 {
        buf[at] = (48 + n) as u8;
        return at + 1;
    }
    let last = write_number(buf, at, n / 10);
    buf[last] = (48 + n % 10) as u8;
    last + 1
}

// Writes a number and a tab behind it. A number has at most 20 digits.
fn write_field(buf: &mut [u8], at: usize, n: u64) -> usize
    requires { at + 21 ≤ length buf.old }
    ensures stored { Stored buf.old at (marked n 9) buf.new result }
    ensures short { result ≤ at + 21 }
{
    let end = write_number(buf, at, n);
    buf[end] = b'\t';
    end + 1
}

// Writes the line of some numbers from a place on: a tab behind each, and in the last one's place the line end.
fn write_line(buf: &mut [u8], at: usize, numbers: &[u64]) -> usize
    requires some { 0 < length numbers.now }
    requires room { at + 21 * length numbers.now ≤ length buf.old }
    ensures stored { Stored buf.old at (line_of numbers.now) buf.new result }
    ensures short { result ≤ at + 21 * length numbers.now }
{
    let mut end = at;
    for n in numbers {
        end = write_field(buf, end, *n);
    }
    buf[end - 1] = b'\n';
    end
}

// Writes the line of some numbers at the start of the buffer, and tells its length.
pub fn answer_line(buf: &mut [u8], numbers: &[u64]) -> usize
    requires some { 0 < length numbers.now }
    requires room { 21 * length numbers.now ≤ length buf.old }
    ensures written { Written buf.old (text_of (numbers.now ∷ [])) buf.new result }
    ensures counts { Counts result buf.new }
{
    write_line(buf, 0, numbers)
}

// Writes the lines of some keys and their values at the start of the buffer, and tells their length.
pub fn pair_lines(buf: &mut [u8], keys: &[u64], values: &[u64]) -> usize
    requires pairs { length keys.now ≡ length values.now }
    requires room { 42 * length keys.now ≤ length buf.old }
    ensures written { Written buf.old (text_of (rows_to (length keys.now) keys.now values.now))
        buf.new result }
    ensures counts { Counts result buf.new }
{
    let mut end = 0;
    for (key, value) in keys.iter().zip(values) {
        end = write_line(buf, end, &[*key, *value]);
    }
    end
}
