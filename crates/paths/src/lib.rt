// What IEEE 1800 says of evaluation, as definitions and laws; nothing here runs.
#![tactic(auto)]
