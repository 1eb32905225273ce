// The claims of demands are not empty: a list of calls, by computation.
#![tactic(auto)]
