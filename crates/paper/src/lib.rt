// The worked lines that are marked to be proved (FORMAT.md, Worked values), as one statement.
#![tactic(auto)]
