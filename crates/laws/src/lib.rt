// The theorems about the definitions of `rules`. They are about the paper and need no code: each file of specs/ proves its statements.
#![tactic(auto)]
