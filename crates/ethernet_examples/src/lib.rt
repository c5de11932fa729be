// No code: X34 to X37, examples of a file of version 2, as one table in specs/, computed by the rules in proofs/.
#![tactic(auto)]
