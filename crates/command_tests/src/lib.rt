//! Tests of the top call, command by command, over files and a console in memory. They stand apart, since a crate with tests is
//! proved twice.
#![tactic(auto)]

#[cfg(test)]
mod check;
#[cfg(test)]
mod device_runs;
#[cfg(test)]
mod fixed;
#[cfg(test)]
mod fixture;
#[cfg(test)]
mod gc;
#[cfg(test)]
mod list;
#[cfg(test)]
mod make;
#[cfg(test)]
mod maps;
#[cfg(test)]
mod merge;
#[cfg(test)]
mod outcomes;
#[cfg(test)]
mod plain;
#[cfg(test)]
mod run;
#[cfg(test)]
mod share;
#[cfg(test)]
mod trace;
#[cfg(test)]
mod zc;
