// A space written out as text, and what the reader makes of that text.
#![tactic(auto)]
