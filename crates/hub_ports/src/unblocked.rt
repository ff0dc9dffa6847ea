//! A writer that nobody waits for.

use libc::net::{POLLOUT, poll};
use libc::types::pollfd;
use std::io;
use std::io::{ErrorKind, Write};
use std::os::fd::AsRawFd;

/// The most bytes of a write: as many have room in a pipe that takes any (`PIPE_BUF` of Linux).
const PIECE: usize = 4096;

/// A writer that fails where it would have to be waited for, as standard error where it is a pipe
/// that is full and that nobody reads.
#[derive(Clone, Copy, Drop)]
pub struct Unblocked<W> {
    writer: W,
}

impl<W> Unblocked<W> {
    /// The same writer, so far as nobody has to wait for it.
    pub fn new(writer: W) -> Unblocked<W> {
        Unblocked { writer }
    }
}

impl<W: Write + AsRawFd> Write for Unblocked<W> {
    /// Writes once, where there is room at once.
    fn write(&mut self, bytes: &[u8]) -> io::Result<usize> {
        if !has_room(self.writer.as_raw_fd()) {
            return Err(io::Error::from(ErrorKind::WouldBlock));
        }
        self.writer.write(&bytes[..bytes.len().min(PIECE)])
    }

    fn flush(&mut self) -> io::Result<()> {
        self.writer.flush()
    }
}

/// Whether what has that number takes bytes at once (poll of POSIX).
fn has_room(number: i32) -> bool {
    let mut asked = [pollfd {
        fd: number,
        events: POLLOUT,
        revents: 0,
    }];
    poll(&mut asked, 0) == 1 && asked[0].revents & POLLOUT != 0
}
