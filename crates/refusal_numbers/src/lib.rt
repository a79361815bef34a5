// No code: the specs are the statement that no call refuses with a number that 01 does not list, the proofs prove it.
#![tactic(auto)]
