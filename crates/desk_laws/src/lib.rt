// No code: laws of a desk in words, over the definitions of `rules` alone.
#![tactic(auto)]
