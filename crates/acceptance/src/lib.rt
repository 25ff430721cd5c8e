// What is promised to the customer, one file for each promise. No code.
#![tactic(auto)]
