//! Reads and writes of std, made again where a signal cut them short.
ghost use Rattle.std.specs.Prelude.{◌≡◌, ◌≤◌, length, false, IfOk};
ghost use Rattle.std.specs.Io.KnownBytes.{ReadConsumes, WriteAppends};
ghost use Rattle.hub_outside.specs.Decisions.{is_cut_short, is_interruption};

use std::io;
use std::io::{ErrorKind, Read, Write};

/// Reads once it isn't cut short. After so many tries as a u64 counts it gives up (ETIMEDOUT).
pub(crate) fn read_once<R: Read>(reader: &mut R, into: &mut [u8]) -> io::Result<usize>
    ensures count { IfOk result (λ count. count ≤ length into.new) }
    ensures bytes { ReadConsumes (R.remaining reader.old) (R.remaining reader.new) result into.new }
    ensures done { is_cut_short result ≡ false }
{
    'tries: for _ in 0..u64::MAX {
        let answer = reader.read(into);
        if !is_cut_short(&answer) {
            return answer;
        }
    }
    Err(io::Error::from(ErrorKind::TimedOut))
}

/// Writes once it isn't cut short. After so many tries as a u64 counts it gives up (ETIMEDOUT).
pub(crate) fn write_once<W: Write>(writer: &mut W, bytes: &[u8]) -> io::Result<usize>
    ensures count { IfOk result (λ count. count ≤ length bytes.now) }
    ensures bytes { WriteAppends (W.contents writer.old) (W.contents writer.new) result bytes.now }
    ensures done { is_cut_short result ≡ false }
{
    'tries: for _ in 0..u64::MAX {
        let answer = writer.write(bytes);
        if !is_cut_short(&answer) {
            return answer;
        }
    }
    Err(io::Error::from(ErrorKind::TimedOut))
}

/// Whether a call of std is to be made again.
fn is_cut_short(answer: &io::Result<usize>) -> bool
    ensures { result ≡ is_cut_short answer.now }
{
    match answer {
        Ok(_) => false,
        Err(error) => is_interruption(error.kind()),
    }
}

fn is_interruption(kind: ErrorKind) -> bool
    ensures { result ≡ is_interruption kind }
{
    match kind {
        ErrorKind::Interrupted => true,
        _ => false,
    }
}
