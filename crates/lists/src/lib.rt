// Lists, their tests and scans: definitions and laws.
#![tactic(auto)]
