// Chain, tree and descent of a directory, over the meanings of its chunks: specs/ and proofs/ hold the definitions and their laws.
#![tactic(auto)]
