//! Rows of the commands: words and files, with the status and the output that they have.
#![tactic(auto)]

#[cfg(test)]
mod calls;
#[cfg(test)]
mod check_rows;
#[cfg(test)]
mod fault_rows;
#[cfg(test)]
mod limit_rows;
#[cfg(test)]
mod proof_rows;
#[cfg(test)]
mod replay_rows;
#[cfg(test)]
mod sat_rows;
#[cfg(test)]
mod word_rows;
