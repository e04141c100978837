// The files that words name.
ghost use Rattle.std.specs.Prelude.{◌≤◌};

use super::say::{Stop, unread, wrong};
use super::words::is_word;
use std::env::Env;
use std::io::{Error, ErrorKind, Read, Seek, SeekFrom};
use std::rt::Runtime;
use std::{fs, io, str};

// What is read: a file, or standard input.
#[derive(Drop)]
pub enum Source<F, I> {
    File(F),
    Input(I),
}

impl<F: Read, I: Read> Read for Source<F, I> {
    fn read(&mut self, buf: &mut [u8]) -> io::Result<usize> {
        match self {
            Source::File(file) => file.read(buf),
            Source::Input(input) => input.read(buf),
        }
    }
}

// What is read twice stands at its start again: standard input does not.
pub fn rewind<F: Seek, I>(rt: &impl Eprint, from: &mut Source<F, I>) -> Result<(), Stop> {
    if let Source::File(file) = from {
        if file.seek(SeekFrom::Start(0)).is_ok() {
            return Ok(());
        }
    }
    Err(wrong(rt, "steps and commands of a drive are files"))
}

// The file that word i names cannot be read.
pub fn unread_word(rt: &(impl Env + Eprint), i: usize, why: Option<Error>) -> Stop {
    let mut name = [0u8; 4096];
    match rt.arg(i, &mut name) {
        Ok(n) => match str::from_utf8(&name[..n]) {
            Ok(words) => unread(rt, words, why),
            Err(_) => unread(rt, "a file whose name is not UTF-8", why),
        },
        Err(_) => unread(rt, "a file", Some(Error::from(ErrorKind::InvalidFilename))),
    }
}

// The file of this name.
fn open_name<R: Runtime>(rt: &R, name: &[u8]) -> Result<R::File, Error> {
    match str::from_utf8(name) {
        Ok(words) => fs::open(rt, words),
        Err(_) => Err(Error::from(ErrorKind::InvalidFilename)),
    }
}

// A file that can be read: a folder can be opened, but not read.
fn open_word<R: Runtime>(rt: &R, i: usize) -> Result<R::File, Error> {
    let mut name = [0u8; 4096];
    let Ok(n) = rt.arg(i, &mut name) else {
        return Err(Error::from(ErrorKind::InvalidFilename));
    };
    let mut file = open_name(rt, &name[..n])?;
    let mut nothing = [0u8; 1];
    file.read(&mut nothing[..0])?;
    Ok(file)
}

// The file that word i names, `-` being standard input.
pub fn open_named<R: Runtime>(rt: &R, i: usize) -> Result<Source<R::File, R::Reader>, Stop> {
    if is_word(rt, i, b"-") {
        return Ok(Source::Input(rt.reader()));
    }
    match open_word(rt, i) {
        Ok(file) => Ok(Source::File(file)),
        Err(error) => Err(unread_word(rt, i, Some(error))),
    }
}

// The file that a word names, where an option names one.
pub fn open_optional<R: Runtime>(
    rt: &R,
    word: Option<usize>,
) -> Result<Option<Source<R::File, R::Reader>>, Stop> {
    match word {
        None => Ok(None),
        Some(i) => Ok(Some(open_named(rt, i)?)),
    }
}

// At most one file is standard input: of the words from the second up to another, and of those of options.
pub fn input_once(
    rt: &(impl Env + Eprint),
    end: usize,
    options: &[Option<usize>],
) -> Result<(), Stop>
    requires { end ≤ 64 }
{
    let is_input = |i: usize| is_word(rt, i, b"-");
    let files = (2..end).filter(|i| is_input(*i)).count();
    let named = options
        .iter()
        .filter(|word| word.is_some_and(is_input))
        .count();
    if files + named < 2 {
        return Ok(());
    }
    Err(wrong(rt, "only one file can be standard input"))
}
