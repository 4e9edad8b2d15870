// The bench program: commands from standard input, done on a blank image of 4 blocks. What decides anything is in the crates `command`
// and `perform`; here is only reading and writing.
#![tactic(auto)]

use perform::ROOM;
use std::io;
use std::io::Write;

fn serve(rt: &impl Print, input: &[u8]) -> io::Result<()> {
    let mut image = [0u8; 1024];
    let mut out = [0u8; ROOM];
    let mut at = 0;
    while let Some((command, next)) = command::read_line(input, at) {
        let n = perform::perform(&mut image, command, &mut out);
        io::writer(rt).write_all(&out[..n])?;
        at = next;
    }
    Ok(())
}

fn refuse(rt: &impl Print) -> io::Result<()> {
    let mut out = [0u8; ROOM];
    let n = perform::refuse(&mut out);
    io::writer(rt).write_all(&out[..n])
}

// One byte more than is allowed, so that a longer input is told from a whole one.
fn main(rt: HostRuntime) -> io::Result<()> {
    let mut buf = [0u8; 65537];
    let n = input::read_full(&rt, &mut buf)?;
    let input = &buf[..n];
    if perform::too_long(input) {
        refuse(&rt)
    } else {
        serve(&rt, input)
    }
}
