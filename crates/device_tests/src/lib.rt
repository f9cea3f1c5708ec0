//! Tests of the adapters over real devices, of which no clause speaks.
#![tactic(auto)]

#[cfg(test)]
mod tests;
