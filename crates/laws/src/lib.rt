// What the definitions and proofs of several crates share and no standard defines: the choice by a
// test, lists given by their offsets, and an output of which a part is written. It has no code and
// carries nothing of the source.
#![tactic(auto)]
