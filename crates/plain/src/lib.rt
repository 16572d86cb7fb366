// The plain engine as definitions: no code.
#![tactic(auto)]
