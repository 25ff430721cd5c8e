// Documents 01 and 02 as definitions, which a reader has to trust. No code.
#![tactic(auto)]
