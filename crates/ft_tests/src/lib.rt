//! Tests of what no clause says, for the crates below: that calls which take memory succeed where there is
//! memory, that generic code works at a type, and what a read that fails in mid-stream leaves. Cases
//! that are input and output of a program are data of `ft_tests_cases` and `ft_tests_forms`.
#![tactic(auto)]

#[cfg(test)]
mod attribution;
#[cfg(test)]
mod copies;
#[cfg(test)]
mod json_values;
#[cfg(test)]
mod scans;
#[cfg(test)]
mod streams;
#[cfg(test)]
mod summaries;
