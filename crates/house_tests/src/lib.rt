// Small houses, and what `examine` answers of them.
#![tactic(auto)]

#[cfg(test)]
mod refusals;
#[cfg(test)]
mod tables;
