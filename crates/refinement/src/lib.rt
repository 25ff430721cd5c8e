// Theorems that the code's walk and client do what document 01 says, call by call. No code.
#![tactic(auto)]
