// Reading a source to its end, a part at a time, and what is done turn by turn.
use super::say::Stop;
use input::read_on;
use std::io::{Error, Read};

// Hands each part of what a source gives, of 65,536 bytes at most, to a function, up to its first error. A read that failed ends it too.
pub fn read_parts<S: Read, E: Drop, F: FnMut(&[u8]) -> Result<(), E>>(
    from: &mut S,
    mut take: F,
) -> Result<Result<(), E>, Error>
    requires { F.IsAlwaysCallable take }
{
    let mut part = [0u8; 65536];
    // as many turns as count for no end
    for _ in 0..u64::MAX {
        let f = read_on(from, &mut part, 0);
        if let Err(end) = take(&part[..f.count]) {
            return Ok(Err(end));
        }
        if f.count == 0 && !f.reach.is_open() {
            return match f.reach.error() {
                Some(error) => Err(error),
                None => Ok(Ok(())),
            };
        }
    }
    Ok(Ok(()))
}

// Whether a turn is followed by another.
#[derive(Clone, Copy, Debug, PartialEq, Eq)]
pub enum Flow {
    On,
    Over,
}

// Turn after turn, up to the last one or one that is stopped.
pub fn take_turns<F: FnMut() -> Result<Flow, Stop>>(mut turn: F) -> Result<(), Stop>
    requires { F.IsAlwaysCallable turn }
{
    // as many turns as count for no end
    for _ in 0..u64::MAX {
        if turn()? == Flow::Over {
            break;
        }
    }
    Ok(())
}
