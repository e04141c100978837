// No code: what a bound of the admission is worth in a run of calls of the scheduler (Q-12), and its figure of idle steps that holds (Q-4).
#![tactic(auto)]
