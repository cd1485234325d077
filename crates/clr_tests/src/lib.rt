//! Tests of what no clause says and no session shows (docs/EXAMPLES.md). There are only tests here.
#![tactic(auto)]

#[cfg(test)]
mod at_desk;
#[cfg(test)]
mod csv_files;
#[cfg(test)]
mod desk;
#[cfg(test)]
mod driver;
#[cfg(test)]
mod fakes;
#[cfg(test)]
mod frozen;
#[cfg(test)]
mod hostile;
#[cfg(test)]
mod http;
#[cfg(test)]
mod limits;
#[cfg(test)]
mod stops;
#[cfg(test)]
mod store;
#[cfg(test)]
mod worked;
#[cfg(test)]
mod writers;
