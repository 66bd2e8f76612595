//! Input of which no more is read than there is room for.

#![tactic(auto)]

ghost use Rattle.std.specs.Prelude.{◌≤◌, length, IfOk};

use std::io;
use std::io::{ErrorKind, Read};

/// Reads until the input ends or the buffer is full, and answers how many bytes came.
pub fn read_up_to<R: Read>(reader: &mut R, buf: &mut [u8]) -> io::Result<usize>
    ensures { IfOk result (λ n. n ≤ length buf.old) }
{
    // the buffer is the caller's, where the library's reading to the end wants one on the heap; and a reader may answer
    // for ever, so its turns are counted
    let mut filled = 0;
    for _ in 0..u64::MAX {
        if filled == buf.len() {
            break;
        }
        match reader.read(&mut buf[filled..]) {
            Ok(0) => break,
            Ok(n) => filled += n,
            Err(e) => {
                if e.kind() != ErrorKind::Interrupted {
                    return Err(e);
                }
            }
        }
    }
    Ok(filled)
}
