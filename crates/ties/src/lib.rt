// A contract tied to definitions: what that says, and how it is shown. There is no code here.
#![tactic(auto)]
