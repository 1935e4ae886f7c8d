//! What is well typed breaks no rule: where the parts of a construct are those of a well typed tree, none of the tests that a refusal tries
//! fails. A value in the tree and the part that it was made of are alike in what the tests read (`IsAlike`): its shape, whether it is a null
//! constant, and its constant.
//! The crate has lemmas only.
#![tactic(auto)]
