//! The bytes of standard input, and of the files that a program's words name.
ghost use Rattle.std.specs.Prelude.{◌≡◌, ◌≢◌, IfOk, Some, codes, is_some, option_copied, option_map};
ghost use Rattle.std.specs.Bool.{OnFalse, OnTrue};
ghost use Rattle.std.specs.Process.{exit_status as exit_status_in};
ghost use Rattle.program_shell.specs.Loading.{AreBytesIf, AreBytesOf, AreInput, KeepsInput};

use std::alloc::Global;
use std::io::Read;
use std::process::ExitCode;
use std::rt::Files;
use std::{fs, io};
use thiserror::Error;

/// A file that was not read.
#[derive(Clone, Copy, Debug, PartialEq, Eq, Error)]
pub enum Unread<'a> {
    /// The memory could not grow.
    #[error("{0}: out of memory")]
    Memory(&'a str),
    /// The file could not be opened or read.
    #[error("{0}: could not be read")]
    Unreadable(&'a str),
}

/// Whether the word stands for standard input.
pub fn is_input(path: &str) -> bool
    ensures named { OnTrue result (path.now ≡ codes "-") }
    ensures other { OnFalse result (path.now ≢ codes "-") }
{
    path == "-"
}

// The reason why the file with this path was not read.
fn unread_file<'a>(path: &'a str, error: io::Error) -> Unread<'a> {
    match error.kind() {
        io::ErrorKind::OutOfMemory => Unread::Memory(path),
        _ => Unread::Unreadable(path),
    }
}

/// The bytes of standard input. If they can't be read, the fault has this name for it.
pub fn load_input<'a, R: Read>(
    alloc: Global,
    name: &'a str,
    reader: &mut R,
) -> Result<Vec<u8>, Unread<'a>>
    ensures { IfOk result (λ bytes. AreInput (R.remaining reader.old) bytes.items) }
{
    let mut bytes = Vec::new(alloc);
    match reader.read_to_end(&mut bytes) {
        Ok(_) => Ok(bytes),
        Err(error) => Err(unread_file(name, error)),
    }
}

/// The bytes of the file with this path.
pub fn load_path<'a, H: Files + AllocGlobal>(rt: &H, path: &'a str) -> Result<Vec<u8>, Unread<'a>> {
    match fs::read(rt, path) {
        Ok(bytes) => Ok(bytes),
        Err(error) => Err(unread_file(path, error)),
    }
}

/// The bytes of the file with this path, or none if there is no path. The path `-` names a file, too, and
/// not standard input.
pub fn load_path_if<'a, H: Files + AllocGlobal>(
    rt: &H,
    path: Option<&'a str>,
) -> Result<Option<Vec<u8>>, Unread<'a>>
    ensures { IfOk result (λ loaded_bytes.
        is_some (option_map (λ bytes. bytes.items) loaded_bytes) ≡ is_some path.entry) }
{
    let Some(path) = path else {
        return Ok(None);
    };
    match load_path(rt, path) {
        Ok(bytes) => Ok(Some(bytes)),
        Err(unread_file) => Err(unread_file),
    }
}

/// The bytes of the file with this path, or of standard input if the path is `-`.
pub fn load_file<'a, R: Read, H: Files + AllocGlobal>(
    rt: &H,
    alloc: Global,
    path: &'a str,
    reader: &mut R,
) -> Result<Vec<u8>, Unread<'a>>
    ensures bytes { IfOk result (λ bytes.
        AreBytesOf path.entry.now (R.remaining reader.old) bytes.items) }
    ensures kept { KeepsInput path.entry.now (R.remaining reader.old) (R.remaining reader.new) }
{
    if is_input(path) {
        load_input(alloc, path, reader)
    } else {
        load_path(rt, path)
    }
}

/// The bytes of the file with this path, or of standard input if the path is `-`; none if there is no path.
pub fn load_if<'a, R: Read, H: Files + AllocGlobal>(
    rt: &H,
    alloc: Global,
    path: Option<&'a str>,
    reader: &mut R,
) -> Result<Option<Vec<u8>>, Unread<'a>>
    ensures bytes { IfOk result (λ loaded_bytes. AreBytesIf
        (option_map (λ path. path.now) path.entry)
        (R.remaining reader.old) (option_map (λ bytes. bytes.items) loaded_bytes)) }
    ensures kept { option_map (λ path. path.now) path.entry ≢ Some (codes "-")
        → R.remaining reader.new ≡ R.remaining reader.old }
{
    match path {
        None => Ok(None),
        Some(path) => match load_file(rt, alloc, path, reader) {
            Ok(bytes) => Ok(Some(bytes)),
            Err(unread_file) => Err(unread_file),
        },
    }
}

/// A file's bytes as a slice, if there is such a file.
pub fn lent(bytes: &Option<Vec<u8>>) -> Option<&[u8]>
    ensures { option_copied result ≡ option_map (λ bytes. bytes.items) bytes.now }
{
    match bytes {
        Some(bytes) => Some(bytes.as_slice()),
        None => None,
    }
}

/// Prints that a file was not read, and returns the exit status.
pub fn refuse_unread<T: Eprint>(console: &T, unread_file: &Unread) -> ExitCode
    ensures { exit_status_in result ≡ 1 }
{
    let _ = eprintln!(console; "residency: {unread_file}");
    ExitCode::from(1)
}
