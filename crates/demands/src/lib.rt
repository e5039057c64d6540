// The demands, by name. They are over the definitions that the contracts of the public functions cite, so that there is no code here.
#![tactic(auto)]
