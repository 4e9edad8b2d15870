// Reads the lines of a few short inputs and then of standard input, and tells what was read: for each line its number, its
// kind (1 put, 2 set, 3 del, 4 get, 5 list, 9 malformed), key and value; behind the last line how many lines and bytes.
#![tactic(auto)]

use command::Command;
use std::io;

fn tell(rt: &impl Print, line: u64, command: Option<Command>) -> io::Result<()> {
    let (kind, key, value): (u8, u64, u64) = match command {
        Some(Command::Put(key, value)) => (1, key, value),
        Some(Command::Set(key, value)) => (2, key, value),
        Some(Command::Del(key)) => (3, key, 0),
        Some(Command::Get(key)) => (4, key, 0),
        Some(Command::List) => (5, 0, 0),
        None => (9, 0, 0),
    };
    println!(rt; "{line}\t{kind}\t{key}\t{value}")
}

fn read_all(rt: &impl Print, input: &[u8]) -> io::Result<()> {
    let mut at = 0;
    let mut lines = 0;
    while let Some((command, next)) = command::read_line(input, at) {
        lines += 1;
        tell(rt, lines, command)?;
        at = next;
    }
    let bytes = input.len();
    println!(rt; "{lines}\t{bytes}")
}

fn main(rt: HostRuntime) -> io::Result<()> {
    read_all(&rt, b"")?;
    read_all(&rt, b"\n")?;
    read_all(&rt, b"\n\n")?;
    read_all(&rt, b"list")?;
    read_all(&rt, b"list\n")?;
    let mut buf = [0u8; 4096];
    let n = input::read_full(&rt, &mut buf)?;
    read_all(&rt, &buf[..n])
}
