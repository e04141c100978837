// The cleanings of a trace in a list of 64 places that is handed back by value: whoever calls this lends no list.
#![tactic(auto)]

ghost use Rattle.std.specs.Prelude.{◌≡◌, replicate};
ghost use Rattle.cleaning.specs.Cleanings.{listing, outcome};
ghost use Rattle.cleaning.specs.Scan.{none};

use basis::Refusal;
use cleaning::Cleaning;
use table::Table;

#[derive(Clone, Copy, Debug, PartialEq, Eq)]
pub struct Listed {
    pub outcome: Result<usize, Refusal>,
    pub list: [Cleaning; 64],
}

pub fn make_list(t: Table, trace: &[u8]) -> Listed
    ensures { outcome result.outcome result.list ≡ listing t trace.now (replicate 64 none) }
{
    let mut list = [Cleaning {
        step: 0,
        before: 0,
        after: 0,
    }; 64];
    let outcome = cleaning::clean(&mut list, t, trace);
    Listed { outcome, list }
}
