//! Tests of what each line of a script says at each place, of lines that are nearly those of a report, of which boards a world
//! knows, and of acts that are planned.
#![tactic(auto)]

#[cfg(test)]
mod fault_lines;
#[cfg(test)]
mod faults;
#[cfg(test)]
mod known_boards;
#[cfg(test)]
mod plan_faults;
#[cfg(test)]
mod plans;
#[cfg(test)]
mod reports;
