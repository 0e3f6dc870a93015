#![tactic(auto)]

// Numbers in bytes, the most significant first, read at a place of a slice and put at one.
