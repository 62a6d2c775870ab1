//! Sources of random bytes that a test chooses.
use std::io;
use std::random::RandomSource;

/// A source that gives the same byte again and again.
#[derive(Clone, Copy)]
pub struct OneByte(pub u8);

impl RandomSource for OneByte {
    fn fill_bytes(&self, buf: &mut [u8]) -> io::Result<()> {
        for byte in buf {
            *byte = self.0;
        }
        Ok(())
    }
}

/// A source that has no random bytes to give.
#[derive(Clone, Copy)]
pub struct NoRandomness;

impl RandomSource for NoRandomness {
    fn fill_bytes(&self, _buf: &mut [u8]) -> io::Result<()> {
        Err(io::Error::from(io::ErrorKind::Unsupported))
    }
}
