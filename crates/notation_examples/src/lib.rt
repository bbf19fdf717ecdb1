//! The grammar notation and its terms, on texts with their faults, numbers and prints worked out by hand: tests alone.
#![tactic(auto)]

#[cfg(test)]
mod built_in;
#[cfg(test)]
mod early_faults;
#[cfg(test)]
mod numbers;
#[cfg(test)]
mod printed;
#[cfg(test)]
mod reading;
#[cfg(test)]
mod terms;
#[cfg(test)]
mod texts;
