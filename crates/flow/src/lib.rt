// A flow relation over at most 16 domains: who may flow to whom, and the first missing pair.
#![tactic(auto)]

ghost use Rattle.std.specs.Prelude.{◌≡◌, ℕ, ◌/◌, ◌%◌, ◌^◌, true, false, eqb, get_or};
ghost use Rattle.std.specs.Int.Bits.{bit_and};
ghost use Rattle.flow.specs.Flow.{flows, row_ok};
ghost use Rattle.flow.specs.Gap.{broken, first_gap, gap_told, told};

// Whether bit j of v is set.
#[tactic(auto, using(crate::proofs::FlowLaws::no_bits))]
pub fn bit(v: u16, j: u8) -> bool
    ensures { result ≡ eqb (v / 2 ^ j % 2) 1 }
{
    j < 16 && (v >> j) % 2 == 1
}

// Whether v has no bit from d on.
#[tactic(auto, using(crate::proofs::FlowLaws::no_bits))]
fn none_from(v: u16, d: u8) -> bool
    ensures { result ≡ eqb (v / 2 ^ d) 0 }
{
    16 <= d || v >> d == 0
}

// Row i; a domain past the rows has an empty one.
pub fn row(rows: [u16; 16], i: u8) -> u16
    ensures { result ≡ get_or rows i 0 }
{
    rows.get(i as usize).copied().unwrap_or(0)
}

// Whether domain i may flow to domain j; a domain past the rows flows nowhere.
pub fn may_flow(rows: [u16; 16], i: u8, j: u8) -> bool
    ensures { result ≡ flows rows i j }
{
    bit(row(rows, i), j)
}

// Whether row i, of value v, names only domains of the table, its own among them.
#[tactic(auto, unfolding(crate::specs::Flow::row_ok))]
pub fn row_passes(domains: u8, i: u8, v: u16) -> bool
    ensures { result ≡ row_ok domains i v }
{
    none_from(v, domains) && bit(v, i)
}

// The first domains that break transitivity: a flows to b, b to c, and a not to c.
#[derive(Clone, Copy, Debug, PartialEq, Eq)]
pub struct Gap {
    pub a: u8,
    pub b: u8,
    pub c: u8,
}

// Whether a, b, c break transitivity.
#[tactic(auto, unfolding(crate::specs::Gap::broken))]
fn breaks(rows: [u16; 16], a: u8, b: u8, c: u8) -> bool
    ensures { result ≡ broken rows a b c }
{
    may_flow(rows, a, b) && may_flow(rows, b, c) && !may_flow(rows, a, c)
}

// Whether w has every bit of v.
fn covers(w: u16, v: u16) -> bool
    ensures { result ≡ eqb (bit_and v w) v }
{
    v & w == v
}

// Whether a does not flow to b, or flows wherever b does: then no c needs to be asked about.
fn is_whole(rows: [u16; 16], a: u8, b: u8) -> bool
    ensures { result ≡ true → (c : ℕ) → broken rows a b c ≡ false }
{
    !may_flow(rows, a, b) || covers(row(rows, a), row(rows, b))
}

// The first missing pair ends the search: the smallest a, then b, then c.
pub fn first_gap(rows: [u16; 16], domains: u8) -> Option<Gap>
    ensures { told result ≡ gap_told (first_gap rows domains) }
{
    let mut found = None;
    'search: for a in 0..domains {
        for b in 0..domains {
            if !is_whole(rows, a, b) {
                for c in 0..domains {
                    if breaks(rows, a, b, c) {
                        found = Some(Gap { a, b, c });
                        break 'search;
                    }
                }
            }
        }
    }
    found
}
