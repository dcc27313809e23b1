// Addresses, which are keys of whole length: which of them a register matches, and how many. The
// definitions that coverage and the count are proved against, what they mean, and the sums and the
// standing by which a descent is proved to find them. There is no code here.
#![tactic(auto)]
