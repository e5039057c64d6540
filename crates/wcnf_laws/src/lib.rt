// Laws of competition files, over the definitions. There is no code here.
#![tactic(auto)]
