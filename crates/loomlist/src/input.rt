// Standard input.
ghost use Rattle.std.specs.Prelude.{◌≤◌, length, IfOk};

use std::io;
use std::io::Read;

// Reads until the room is full or the input ends, and tells how many bytes were read.
pub fn read_all(from: &mut impl Read, room: &mut [u8]) -> io::Result<usize>
    ensures { IfOk result (λ len. len ≤ length room.old) }
{
    let mut len = 0;
    while len < room.len() {
        let got = from.read(&mut room[len..])?;
        if got == 0 {
            break;
        }
        len += got;
    }
    Ok(len)
}
