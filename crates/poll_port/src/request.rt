//! The request of a poll.

ghost use Rattle.std.specs.Prelude.{◌≡◌, string_bytes, IfOk};
ghost use Rattle.poll_port.specs.Requests.{request_for};

use crate::NoMemory;
use std::alloc::Global;

/// The request for a path of a host.
pub(crate) fn request_for(alloc: Global, host: &str, path: &str) -> Result<String, NoMemory>
    ensures { IfOk result (λ text. string_bytes text ≡ request_for host.now path.now) }
{
    format!(in alloc; "GET {path} HTTP/1.0\r\nHost: {host}\r\nConnection: close\r\n\r\n")
}
