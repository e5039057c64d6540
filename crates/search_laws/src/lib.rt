// Laws of a search by either bound. They are over the definitions alone, so that there is no code here.
#![tactic(auto)]
