// Laws of the bound by groups. They are over the definitions alone, so that there is no code here.
#![tactic(auto)]
