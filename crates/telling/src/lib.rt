// Laws of a test that tells whether something holds: it is true just where it does. It has no code: its laws are in proofs/.
#![tactic(auto)]
