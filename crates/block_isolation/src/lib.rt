// No code: demand 3 over blocks, and what a domain is shown of a trace.
#![tactic(auto)]
