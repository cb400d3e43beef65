// The large theorems about the rules: demands 2 and 3. All of it stands in specs/ and proofs/; nothing depends on it.
#![tactic(auto)]
