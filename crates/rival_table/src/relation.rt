// The flow relation. A row is the set of the domains that its domain may flow to.
use flow::Gap;

// The set of domain j alone.
pub fn only(j: u8) -> u16 {
    1u16 << j % 16
}

// Whether a set has all that part has.
pub fn covers(set: u16, part: u16) -> bool {
    set | part == set
}

// The row of domain i.
pub fn row(rows: [u16; 16], i: u8) -> u16 {
    rows[i as usize % 16]
}

// Whether domain i may flow to domain j.
pub fn flows(rows: [u16; 16], i: u8, j: u8) -> bool {
    covers(row(rows, i), only(j))
}

// A domain that the table lacks has no flow at all, and every other flows to itself.
fn pair_is_good(rows: [u16; 16], domains: u8, i: u8, j: u8) -> bool {
    if i >= domains || j >= domains {
        return !flows(rows, i, j);
    }
    i != j || flows(rows, i, j)
}

pub fn row_is_good(rows: [u16; 16], domains: u8, i: u8) -> bool {
    (0..16).all(|j| pair_is_good(rows, domains, i, j))
}

pub fn rows_are_good(rows: [u16; 16], domains: u8) -> bool {
    (0..16).all(|i| row_is_good(rows, domains, i))
}

// The first three domains with a flow from a to b and from b to c, and none from a to c. Where a does not flow to b, no c is asked for.
pub fn first_gap(rows: [u16; 16], domains: u8) -> Option<Gap> {
    for a in 0..domains {
        for b in (0..domains).filter(|b| flows(rows, a, *b)) {
            if let Some(c) = (0..domains).find(|c| flows(rows, b, *c) && !flows(rows, a, *c)) {
                return Some(Gap { a, b, c });
            }
        }
    }
    None
}
