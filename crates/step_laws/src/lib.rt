// No code: laws of the steps on a desk, over the definitions of `rules` alone.
#![tactic(auto)]
