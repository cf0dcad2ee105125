// The walk against the paths, as laws; nothing here runs.
#![tactic(auto)]
