// Laws about lists, choices and XOR that several crates need and the kit does not have. No code.
#![tactic(auto)]
