// Theorems on document 01's definitions: the walk, the operations as machines, the order of a flash. No code.
#![tactic(auto)]
