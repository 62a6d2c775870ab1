//! Readers that give one byte at a time and may fail or be interrupted, and a writer that may fail.
use std::io;
use std::io::{Read, Write};

/// A reader that gives its text byte by byte up to `good_bytes` bytes, and then an error of this kind.
#[derive(Drop)]
pub(crate) struct CutReader<'a> {
    text: &'a [u8],
    position: usize,
    good_bytes: usize,
    error_kind: io::ErrorKind,
}

impl<'a> CutReader<'a> {
    pub(crate) fn new(text: &'a [u8], good_bytes: usize) -> CutReader<'a> {
        CutReader::failing(text, good_bytes, io::ErrorKind::BrokenPipe)
    }

    pub(crate) fn failing(
        text: &'a [u8],
        good_bytes: usize,
        error_kind: io::ErrorKind,
    ) -> CutReader<'a> {
        CutReader {
            text,
            position: 0,
            good_bytes,
            error_kind,
        }
    }
}

impl<'a> Read for CutReader<'a> {
    fn read(&mut self, buf: &mut [u8]) -> io::Result<usize> {
        if self.position >= self.good_bytes {
            return Err(io::Error::from(self.error_kind));
        }
        match (self.text.get(self.position), buf.first_mut()) {
            (Some(byte), Some(target)) => {
                *target = *byte;
                self.position = self.position.saturating_add(1);
                Ok(1)
            }
            _ => Ok(0),
        }
    }
}

/// A reader that gives its text byte by byte, and is interrupted once before each group of `interval` bytes.
#[derive(Drop)]
pub(crate) struct InterruptedReader<'a> {
    text: &'a [u8],
    position: usize,
    interval: usize,
    // How many reads come before the next interruption.
    reads_left: usize,
}

impl<'a> InterruptedReader<'a> {
    pub(crate) fn new(text: &'a [u8], interval: usize) -> InterruptedReader<'a> {
        InterruptedReader {
            text,
            position: 0,
            interval,
            reads_left: 0,
        }
    }
}

impl<'a> Read for InterruptedReader<'a> {
    fn read(&mut self, buf: &mut [u8]) -> io::Result<usize> {
        if self.reads_left == 0 {
            self.reads_left = self.interval;
            return Err(io::Error::from(io::ErrorKind::Interrupted));
        }
        self.reads_left -= 1;
        match (self.text.get(self.position), buf.first_mut()) {
            (Some(byte), Some(target)) => {
                *target = *byte;
                self.position = self.position.saturating_add(1);
                Ok(1)
            }
            _ => Ok(0),
        }
    }
}

/// A writer that accepts three bytes in each call, and fails at the call after `good_calls` calls.
#[derive(Drop)]
pub(crate) struct CutWriter {
    accepted: Vec<u8>,
    good_calls: usize,
}

impl CutWriter {
    pub(crate) fn new(accepted: Vec<u8>, good_calls: usize) -> CutWriter {
        CutWriter {
            accepted,
            good_calls,
        }
    }

    /// The bytes accepted so far.
    pub(crate) fn accepted(&self) -> &[u8] {
        self.accepted.as_slice()
    }
}

impl Write for CutWriter {
    fn write(&mut self, buf: &[u8]) -> io::Result<usize> {
        if self.good_calls == 0 {
            return Err(io::Error::from(io::ErrorKind::BrokenPipe));
        }
        self.good_calls -= 1;
        let accepted_count = buf.len().min(3);
        self.accepted.extend_from_slice(&buf[..accepted_count])?;
        Ok(accepted_count)
    }

    fn flush(&mut self) -> io::Result<()> {
        Ok(())
    }
}
