// The key size of a book, as Look and Open report it: the theorem that the two are the same, over what
// `binary_office` and `excel97` promise. It has no code and carries nothing of the source.
#![tactic(auto)]
