//! Tests of finite models, on the texts of theories and models.
#![tactic(auto)]

#[cfg(test)]
mod making;
#[cfg(test)]
mod numbers;
#[cfg(test)]
mod size;
