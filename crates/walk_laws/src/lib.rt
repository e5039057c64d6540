// Laws of the bound and of the walk. They are over the definitions alone, so that there is no code here.
#![tactic(auto)]
