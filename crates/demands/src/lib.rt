// No code: the user's three demands, each stated whole over the definitions of the public operations.
#![tactic(auto)]
