//! Tests of typing: values of constants, results of operators (`po_constants`), types of words (`po_specified`), what operators make of operands
//! (`po_operands`).
#![tactic(auto)]

#[cfg(test)]
mod characters;
#[cfg(test)]
mod integers;
#[cfg(test)]
mod operands;
#[cfg(test)]
mod operators;
#[cfg(test)]
mod strings;
#[cfg(test)]
mod type_words;
