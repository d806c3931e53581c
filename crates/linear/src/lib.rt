// The mathematics of the book: rows of codes, the pivot step, and counting. There is no code here, only lemmas.

#![tactic(auto)]
