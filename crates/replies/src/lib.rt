#![tactic(auto)]
// Why two replies that a call's contract allows are equal. Lemmas; there is no code.
