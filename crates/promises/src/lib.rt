// What is promised, by name: the demands, and what the contract of each entry point says. There is no code here.
#![tactic(auto)]
