//! A reader that reads again after an interrupted read.
ghost use Rattle.std.specs.Prelude.{◌≡◌, ◌≢◌, ◌<◌, true, false, length, take, IfOk, IfErr, OnErr};
ghost use Rattle.std.specs.Io.{ReadsAtMost};
ghost use Rattle.std.specs.Io.KnownBytes.{Consumes, IsAtEnd, Keeps};
ghost use Rattle.std.specs.IoError.{error_kind};
ghost use Rattle.records.specs.Retrying.{inner_of};

use std::io;
use std::io::{ErrorKind, Read};

// Whether a signal interrupted the read before any byte was read.
fn is_interrupted(error: &io::Error) -> bool
    ensures interrupted { result ≡ true → error_kind error.now ≡ ErrorKind.Interrupted }
    ensures other { result ≡ false → error_kind error.now ≢ ErrorKind.Interrupted }
{
    error.kind() == ErrorKind::Interrupted
}

// Reads once. After an interruption the reading is tried again, up to 2^64 - 1 times.
fn read_again<R: Read>(reader: &mut R, buf: &mut [u8]) -> io::Result<usize>
    ensures bound { ReadsAtMost result buf.new }
    ensures ok { IfOk result (λ n.
        Consumes (R.remaining reader.old) (R.remaining reader.new) (take n buf.new)) }
    ensures end { IfOk result (λ n. n ≡ 0 → 0 < length buf.old → IsAtEnd (R.remaining reader.new)) }
    ensures err { OnErr result (Keeps (R.remaining reader.old) (R.remaining reader.new)) }
    ensures retried { IfErr result (λ e. error_kind e ≢ ErrorKind.Interrupted) }
{
    for _ in 0..u64::MAX {
        match reader.read(buf) {
            Ok(bytes_read) => return Ok(bytes_read),
            Err(error) => {
                if !is_interrupted(&error) {
                    return Err(error);
                }
            }
        }
    }
    Err(io::Error::from(ErrorKind::TimedOut))
}

/// A reader that tries again after an interruption, as the standard library's own readers do.
#[derive(Drop)]
pub struct Retrying<R> {
    inner: R,
}

impl<R> Retrying<R> {
    /// A retrying reader over another reader.
    pub fn new(inner: R) -> Retrying<R>
        ensures { inner_of result ≡ inner }
    {
        Retrying { inner }
    }
}

impl<R: Read> Read for Retrying<R> {
    ghost remaining = { λ r. R.remaining (inner_of r) };

    fn read(&mut self, buf: &mut [u8]) -> io::Result<usize> {
        read_again(&mut self.inner, buf)
    }
}
