//! Worked cases of crates that the program's calls don't show: limits, files and sinks, tokens, forms and matrices, polynomials,
//! the numbers of covers, computation graphs, boards, replays, programs of matrix products, and of what makes certificates:
//! multipliers, sums of powers, counts and least covers that are found, and certificates that are made.
#![tactic(auto)]

#[cfg(test)]
mod board_tests;
#[cfg(test)]
mod bound_tests;
#[cfg(test)]
mod count_tests;
#[cfg(test)]
mod cover_tests;
#[cfg(test)]
mod form_tests;
#[cfg(test)]
mod graph_tests;
#[cfg(test)]
mod host_tests;
#[cfg(test)]
mod least_cover_tests;
#[cfg(test)]
mod limit_tests;
#[cfg(test)]
mod multiplier_tests;
#[cfg(test)]
mod polynomial_tests;
#[cfg(test)]
mod power_tests;
#[cfg(test)]
mod product_tests;
#[cfg(test)]
mod replay_tests;
#[cfg(test)]
mod schedule_tests;
#[cfg(test)]
mod texts;
#[cfg(test)]
mod token_tests;
