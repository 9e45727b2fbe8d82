// How rules stand in a file, and how scratch is laid out for a run.
#![tactic(auto)]
