// The rule behind a batch's refusal: which one, where and with which figures.
#![tactic(auto)]

pub mod batch;
pub mod checks;
pub mod gates;
pub mod listing;
pub mod numbers;
pub mod operations;
pub mod reading;
pub mod reasons;
pub mod rules;
pub mod targets;
