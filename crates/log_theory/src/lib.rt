// The bench log as a whole: however its input is cut into pieces, what it writes is document 01's output. No code.
#![tactic(auto)]
