// The two kinds of classes: words, which tell all homotopy classes apart, and sides, which tell parities.
#![tactic(auto)]

pub mod letters;
pub mod naming;
pub mod sides;
pub mod spelling;
pub mod symbols;
pub mod words;
