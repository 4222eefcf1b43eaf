// Objects written out as text (ISO 32000-1, 7.3), one way of each, and what the lexer makes of them.
#![tactic(auto)]
