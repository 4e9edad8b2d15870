// The bench program's lines, and the commands read from them.
#![tactic(auto)]

mod reader;

ghost use Rattle.std.specs.Prelude.{◌≡◌, ◌+◌, ◌<◌, ◌≤◌, length, IfSome};
ghost use Rattle.command.specs.Reading.{until, field_at, rest_at, pair_at, parse_of, line_at};

use number::spelled_by;
use reader::read_field;
pub use reader::{Reader, read_line};

// What a line says. A line that spells none of these is malformed: it is read as no command.
#[derive(Clone, Copy)]
pub enum Command {
    Put(u64, u64),
    Set(u64, u64),
    Del(u64),
    Get(u64),
    List,
}

// How many bytes stand before the first byte `sought`, or all where there is none.
fn until(sought: u8, bytes: &[u8]) -> usize
    ensures value { result ≡ until sought bytes.now }
    ensures within { result ≤ length bytes.now }
{
    bytes
        .iter()
        .position(|byte| *byte == sought)
        .unwrap_or(bytes.len())
}

// The field at a place of a line, and where it ends: at the next tab or with the line.
fn field_at(line: &[u8], at: usize) -> Option<(u64, usize)>
    ensures value { result ≡ field_at line.now at }
    ensures within { IfSome result (λ field. field.1 ≤ length line.now) }
{
    let rest = line.get(at..)?;
    let long = until(b'\t', rest);
    Some((spelled_by(&rest[..long])?, at + long))
}

// The number that all of the line from a place on spells: a tab is no digit, so there is no further field.
fn rest_at(line: &[u8], at: usize) -> Option<u64>
    ensures { result ≡ rest_at line.now at }
{
    spelled_by(line.get(at..)?)
}

// The key and the value of a put or a set.
fn pair_at(line: &[u8], at: usize) -> Option<(u64, u64)>
    ensures { result ≡ pair_at line.now at }
{
    let (key, end) = read_field(line, at)?;
    Some((key, rest_at(line, end + 1)?))
}

// The command that a line, without its line end, spells. Words "are matched byte by byte": one that takes numbers with the
// tab behind it, `list` with nothing behind it.
#[tactic(auto, using(crate::proofs::ParseLaws::parsing))]
pub fn parse(line: &[u8]) -> Option<Command>
    ensures { result ≡ parse_of line.now }
{
    if line.starts_with(b"put\t") {
        let (key, value) = pair_at(line, 4)?;
        return Some(Command::Put(key, value));
    }
    if line.starts_with(b"set\t") {
        let (key, value) = pair_at(line, 4)?;
        return Some(Command::Set(key, value));
    }
    if line.starts_with(b"del\t") {
        return Some(Command::Del(rest_at(line, 4)?));
    }
    if line.starts_with(b"get\t") {
        return Some(Command::Get(rest_at(line, 4)?));
    }
    if line.len() == 4 && line.starts_with(b"list") {
        return Some(Command::List);
    }
    None
}

// What the line at a place of the input says, and the place behind its line end, the next byte 10 or the end of the input.
#[tactic(auto, unfolding(crate::specs::Reading::line_at))]
fn line_at(input: &[u8], at: usize) -> Option<(Option<Command>, usize)>
    ensures value { result ≡ line_at input.now at }
    ensures later { IfSome result (λ line. (at < line.1) × (line.1 ≤ length input.now + 1)) }
{
    if input.len() <= at {
        return None;
    }
    let rest = &input[at..];
    let long = until(b'\n', rest);
    Some((parse(&rest[..long]), at + long + 1))
}
