// What IEEE 1800 says of statement order, as definitions and laws; nothing here runs.
#![tactic(auto)]
