// Where the picture goes: a path that it replaces once it is whole, what may not be replaced, or standard output.
use super::rows::Picture;
use cli_arguments::words;
use std::fs;
use std::fs::{File, OpenFile, OpenOptions};
use std::io::{Error, ErrorKind, Write};
use std::rt::{Env, Files};

// Whether the system keeps what was written to a file. It may still have to refuse a plain file's bytes: those that are on
// their way are waited for, where the file's system can. (A pipe or a device has none.)
fn keep<F: OpenFile>(file: &F) -> Result<(), Error> {
    if file.metadata()?.is_file() {
        waited_for(file.sync_all())
    } else {
        Ok(())
    }
}

// A file system that cannot wait for bytes says that the call is invalid, which is nothing against them.
fn waited_for(synced: Result<(), Error>) -> Result<(), Error> {
    match synced {
        Err(e) if e.kind() == ErrorKind::InvalidInput => Ok(()),
        other => other,
    }
}

// The picture, written to an open file, which is then closed.
fn fill<F: Write + OpenFile + Drop>(mut file: F, picture: &Picture) -> Result<(), Error> {
    picture.write(&mut file)?;
    keep(&file)
}

// The picture written to its path directly: to what is no regular file, which nothing may replace.
pub fn overwrite(rt: &impl Files, path: &[u8], picture: &Picture) -> Result<(), Error> {
    fill(File::create(rt, words::path(path)?)?, picture)
}

// A new file.
fn create<R: Files>(rt: &R, path: &[u8]) -> Result<R::File, Error> {
    OpenOptions::new()
        .write(true)
        .create_new(true)
        .open(rt, words::path(path)?)
}

fn rename(rt: &impl Files, from: &[u8], to: &[u8]) -> Result<(), Error> {
    fs::rename(rt, words::path(from)?, words::path(to)?)
}

fn unlink(rt: &impl Files, path: &[u8]) -> Result<(), Error> {
    fs::remove_file(rt, words::path(path)?)
}

// The picture written to a new file that then takes the path's name: the path has the whole picture or what it had before.
pub fn replace(
    rt: &impl Files,
    temporary: &[u8],
    path: &[u8],
    picture: &Picture,
) -> Result<(), Error> {
    let file = create(rt, temporary)?;
    let done = fill(file, picture).and_then(|()| rename(rt, temporary, path));
    if done.is_err() {
        let _ = unlink(rt, temporary);
    }
    done
}
