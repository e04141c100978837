// No code: demand 3, over the calls of the scheduler and what a domain is shown of them.
#![tactic(auto)]
