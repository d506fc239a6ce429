// No code: tick lists are computed here through the table alone, so that a change of a row is tried in seconds.
#![tactic(auto)]
