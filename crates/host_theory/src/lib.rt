// The exported calls, over any list of calls: what they leave and answer is what the client's own calls say. No code.
#![tactic(auto)]
