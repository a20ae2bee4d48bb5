// The settled form of a meaning, as a definition, and what it promises. There is no function here.
#![tactic(auto)]
