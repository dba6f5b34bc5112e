// Two books with the same lock take the same passwords: the theorem, over what `binary_office` and `excel97` promise. It
// has no code and carries nothing of the source.
#![tactic(auto)]
