// 01's trials, beyond those of rules: definitions at work, by computation alone.
#![tactic(auto)]
