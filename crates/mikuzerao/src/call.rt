// What the program is called to do.

#[derive(Clone, Copy, Debug, PartialEq, Eq)]
pub enum Call {
    Check,
    Bytes,
    Sheet,
    Plan,
    Mend,
    Run,
    Trace,
    Clean,
    Drive,
    Help,
}

// The call that the first word names, if it names one.
pub fn call_of(word: &[u8]) -> Option<Call> {
    match word {
        b"check" => Some(Call::Check),
        b"bytes" => Some(Call::Bytes),
        b"sheet" => Some(Call::Sheet),
        b"plan" => Some(Call::Plan),
        b"mend" => Some(Call::Mend),
        b"run" => Some(Call::Run),
        b"trace" => Some(Call::Trace),
        b"clean" => Some(Call::Clean),
        b"drive" => Some(Call::Drive),
        b"help" => Some(Call::Help),
        _ => None,
    }
}
