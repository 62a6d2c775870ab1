//! The files of a directory.
ghost use Rattle.std.specs.Prelude.{◌≡◌, IfOk, length};

use program_shell::{Unread, load_path};
use std::alloc::{AllocError, Global};
use std::io;
use std::io::Read;
use std::rt::Files;

// The path of a directory, with a slash after it.
fn with_slash(alloc: Global, path: &str) -> Result<String, AllocError> {
    let mut with_slash = String::from_str(alloc, path)?;
    if !path.ends_with('/') {
        with_slash.push('/')?;
    }
    Ok(with_slash)
}

// The names in a directory, each ended by a zero byte.
fn names_in<H: Files>(rt: &H, alloc: Global, directory: &str) -> io::Result<Vec<u8>> {
    let mut names = Vec::new(alloc);
    let mut open_directory = rt.open_dir(directory)?;
    // With less room than the longest name takes, a file system may refuse to read.
    let mut name_buffer = [0u8; 4096];
    for _ in 0..u64::MAX {
        let byte_count = open_directory.read(&mut name_buffer)?;
        if byte_count == 0 {
            return Ok(names);
        }
        names.extend_from_slice(&name_buffer[..byte_count])?;
    }
    Err(io::Error::from(io::ErrorKind::Other))
}

// The path of the file with this name in a directory. The name has to be text.
fn path_of(alloc: Global, directory: &str, name: &[u8]) -> io::Result<String> {
    let Ok(name) = std::str::from_utf8(name) else {
        return Err(io::Error::from(io::ErrorKind::InvalidFilename));
    };
    let mut path = String::from_str(alloc, directory)?;
    path.push_str(name)?;
    Ok(path)
}

// The paths of those files in a directory whose names don't begin with a dot, in the order of the paths' bytes.
fn sorted_paths<H: Files>(rt: &H, alloc: Global, directory: &str) -> io::Result<Vec<String>> {
    let directory = with_slash(alloc, directory)?;
    let names = names_in(rt, alloc, directory.as_str())?;
    let mut paths = Vec::new(alloc);
    for name in names.as_slice().split(|byte| *byte == 0) {
        if !name.is_empty() && !name.starts_with(b".") {
            paths.push(path_of(alloc, directory.as_str(), name)?)?;
        }
    }
    paths.sort()?;
    Ok(paths)
}

/// The paths of those files in a directory whose names don't begin with a dot, in the order of the paths' bytes.
pub(crate) fn paths_in<'a, H: Files>(
    rt: &H,
    alloc: Global,
    directory: &'a str,
) -> Result<Vec<String>, Unread<'a>> {
    match sorted_paths(rt, alloc, directory) {
        Ok(paths) => Ok(paths),
        Err(error) => match error.kind() {
            io::ErrorKind::OutOfMemory => Err(Unread::Memory(directory)),
            _ => Err(Unread::Unreadable(directory)),
        },
    }
}

// Whether this is the path of a file, and not of something else, such as a pipe or a directory.
fn is_file<H: Files>(rt: &H, path: &str) -> bool {
    match rt.metadata(path) {
        Ok(metadata) => metadata.is_file(),
        Err(_) => false,
    }
}

/// The path with a question mark for each control character, since strangers may have chosen the names in a directory.
pub(crate) fn visible_path(alloc: Global, path: &str) -> Result<String, AllocError> {
    let mut visible_text = String::new(alloc);
    for character in path.chars() {
        visible_text.push(if character.is_control() {
            '?'
        } else {
            character
        })?;
    }
    Ok(visible_text)
}

/// The bytes of the files with these paths, in their order.
pub(crate) fn load_files<'a, H: Files + AllocGlobal>(
    rt: &H,
    alloc: Global,
    paths: &'a [String],
) -> Result<Vec<Vec<u8>>, Unread<'a>>
    ensures { IfOk result (λ files. length files.items ≡ length paths.now) }
{
    let mut files = Vec::new(alloc);
    for k in 0..paths.len() {
        let path = paths[k].as_str();
        if !is_file(rt, path) {
            return Err(Unread::Unreadable(path));
        }
        let file = load_path(rt, path)?;
        if files.push(file).is_err() {
            return Err(Unread::Memory(path));
        }
    }
    Ok(files)
}
