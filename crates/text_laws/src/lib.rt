// Laws of the text's definitions, in proofs/: what is written is read back, and what is read was written so. No code.
#![tactic(auto)]
