// No code: whole files are computed here, so that an edit of the crates below does not wait for them.
#![tactic(auto)]
