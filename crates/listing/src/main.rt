// Lists the two framed sheets of standard input.
#![tactic(auto)]

ghost use Rattle.std.specs.Prelude.{◌≢◌, ◌<◌, ◌≤◌, length, IfOk, IfErr};
ghost use Rattle.std.specs.IoError.{error_kind};
ghost use Rattle.std.specs.Io.KnownBytes.{Consumes, IsAtEnd};

use report::report::{INPUT_LIMIT, report};
use std::io;
use std::io::{ErrorKind, Read, Write};

// Reads until the room is full or the input ends, and gives the front that is filled: the next bytes of the input.
// Each read is offered all the room that is left, so that no part of a message is lost where the input comes in messages.
fn fill<'b, R: Read>(input: &mut R, room: &'b mut [u8]) -> io::Result<&'b [u8]>
    ensures fits { IfOk result (λ front. length front.now ≤ length room.old) }
    ensures bytes { IfOk result (λ front. Consumes (R.remaining input.old) (R.remaining input.new) front.now) }
    ensures end { IfOk result (λ front. length front.now < length room.old → IsAtEnd (R.remaining input.new)) }
    ensures retried { IfErr result (λ e. error_kind e ≢ ErrorKind.Interrupted) }
{
    let mut end = 0;
    // A loop is proved to end, so this one counts its reads.
    for _ in 0..u64::MAX {
        if end == room.len() {
            return Ok(room);
        }
        match input.read(&mut room[end..]) {
            Ok(0) => return Ok(&room[..end]),
            Ok(count) => end += count,
            Err(e) if e.kind() == ErrorKind::Interrupted => {}
            Err(e) => return Err(e),
        }
    }
    Err(ErrorKind::TimedOut.into())
}

fn main(rt: HostRuntime) -> io::Result<()> {
    let mut room = [0; INPUT_LIMIT];
    let input = fill(&mut rt.stdin(), &mut room)?;
    rt.stdout().write_all(report(input).as_bytes())
}
