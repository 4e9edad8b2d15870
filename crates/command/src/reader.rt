// "A reader holds the input and its place in it": thin functions over those that take a slice and a number. `read_field` and
// `read_line` have plain parameters.
ghost use Rattle.std.specs.Prelude.{◌≡◌, ◌+◌, ◌<◌, ◌≤◌, length, IfSome};
ghost use Rattle.command.specs.Reading.{field_at, line_at};

use crate::{Command, field_at, line_at};

#[derive(Clone, Copy)]
pub struct Reader<'a> {
    pub src: &'a [u8],
    pub at: usize,
}

impl<'a> Reader<'a> {
    pub fn new(src: &'a [u8], at: usize) -> Reader<'a>
        ensures { (result.src ≡ src.entry) × (result.at ≡ at) }
    {
        Reader { src, at }
    }

    // A field's number and the place where the field ends.
    pub fn next_field(self) -> Option<(u64, usize)>
        ensures value { result ≡ field_at self.entry.src.now self.entry.at }
        ensures within { IfSome result (λ field. field.1 ≤ length self.entry.src.now) }
    {
        field_at(self.src, self.at)
    }

    // A line's command, none where it is malformed, and the place behind its line end; nothing at the end of the input.
    pub fn next_line(self) -> Option<(Option<Command>, usize)>
        ensures value { result ≡ line_at self.entry.src.now self.entry.at }
        ensures later { IfSome result (λ line. (self.entry.at < line.1) × (line.1 ≤ length self.entry.src.now + 1)) }
    {
        line_at(self.src, self.at)
    }
}

pub fn read_field(line: &[u8], at: usize) -> Option<(u64, usize)>
    ensures value { result ≡ field_at line.now at }
    ensures within { IfSome result (λ field. field.1 ≤ length line.now) }
{
    Reader::new(line, at).next_field()
}

pub fn read_line(input: &[u8], at: usize) -> Option<(Option<Command>, usize)>
    ensures value { result ≡ line_at input.now at }
    ensures later { IfSome result (λ line. (at < line.1) × (line.1 ≤ length input.now + 1)) }
{
    Reader::new(input, at).next_line()
}
