//! Lists of a merge tree's elements, which are known by their place, beside the document's lists, whose elements are known by their
//! name: lemmas alone, of any content. Each step of a tree is that of the document's list, and it is told where the element of
//! each name stands afterwards.
#![tactic(auto)]
