// No code: a computed pair of runs for each rule that demand 3 needs, one for the masks, one for windows, and the story of the three parties.
// What a bound buys and what the idle figures are worth, for a class too: crate worth, specs/Premises.antt and specs/Measured.antt.
#![tactic(auto)]
