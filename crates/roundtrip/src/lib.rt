// The round trip of a new book: its head, with content behind it, opens, and lists the entries that it was made of. specs/ says so, proofs/ shows it.
#![tactic(auto)]
