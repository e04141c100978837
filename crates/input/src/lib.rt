// Reading a file or standard input into a buffer.
#![tactic(auto)]

ghost use Rattle.std.specs.Prelude.{◌≤◌, ◌<◌, ◌≡◌, length, take};
ghost use Rattle.input.specs.Reach.{is_whole, is_open, error_of};

use std::fs;
use std::io::{Error, ErrorKind, Read};
use std::rt::Files;

// How far reading has come: to all that there is or that there is room for, to a part, or to a read that was interrupted, took nothing
// and is to be made again, or that failed; or there is no file, which counts as no bytes.
#[derive(Clone, Copy)]
pub enum Reach {
    Whole,
    Part,
    Interrupted(Error),
    Failed(Error),
    Absent(Error),
}

impl Reach {
    // Whether all is there.
    pub fn is_whole(self) -> bool
        ensures { result ≡ is_whole self }
    {
        matches!(self, Reach::Whole | Reach::Absent(_))
    }

    // Whether to read on.
    pub fn is_open(self) -> bool
        ensures { result ≡ is_open self }
    {
        matches!(self, Reach::Part | Reach::Interrupted(_))
    }

    // Why the last read took nothing, or why no file was opened, if it is so.
    pub fn error(self) -> Option<Error>
        ensures { result ≡ error_of self }
    {
        match self {
            Reach::Interrupted(error) | Reach::Failed(error) | Reach::Absent(error) => Some(error),
            Reach::Whole | Reach::Part => None,
        }
    }
}

// How many bytes stand at the start of a buffer, and how far reading has come.
#[derive(Clone, Copy)]
pub struct Filled {
    pub count: usize,
    pub reach: Reach,
}

// One read behind the bytes that are there: what has arrived, and where nothing has, it waits.
pub fn read_on<R: Read>(from: &mut R, buf: &mut [u8], at: usize) -> Filled
    requires { at ≤ length buf.old }
    ensures { (result.count ≤ length buf.new) × (at ≤ result.count) × (take at buf.new ≡ take at buf.old) }
{
    match from.read(&mut buf[at..]) {
        Ok(0) => Filled {
            count: at,
            reach: Reach::Whole,
        },
        Ok(got) => {
            let count = at + got;
            let reach = if count == buf.len() {
                Reach::Whole
            } else {
                Reach::Part
            };
            Filled { count, reach }
        }
        Err(error) => {
            let reach = if error.kind() == ErrorKind::Interrupted {
                Reach::Interrupted(error)
            } else {
                Reach::Failed(error)
            };
            Filled { count: at, reach }
        }
    }
}

// For a loop of which nothing says that it ends: one turn less, or none once it is over.
pub fn turns_left(turns: u64, open: bool) -> u64
    requires { 0 < turns }
    ensures { result < turns }
{
    if open { turns - 1 } else { 0 }
}

// Reads until buf is full or the input ends. The reads are counted, since interruptions might never end.
pub fn fill<R: Read>(from: &mut R, buf: &mut [u8]) -> Filled
    ensures { result.count ≤ length buf.new }
{
    let mut f = Filled {
        count: 0,
        reach: Reach::Part,
    };
    for _ in 0..1000000u64 {
        f = read_on(from, buf, f.count);
        if !f.reach.is_open() {
            break;
        }
    }
    f
}

// The bytes of table.bin; no file counts as no bytes.
pub fn load(rt: &impl Files, buf: &mut [u8]) -> Filled
    ensures { result.count ≤ length buf.new }
{
    match fs::open(rt, "table.bin") {
        Ok(mut file) => fill(&mut file, buf),
        Err(error) => {
            let reach = if error.kind() == ErrorKind::NotFound {
                Reach::Absent(error)
            } else {
                Reach::Failed(error)
            };
            Filled { count: 0, reach }
        }
    }
}
