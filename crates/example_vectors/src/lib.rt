//! Tests only: the examples on known rows, and on texts longer than each buffer.
#![tactic(auto)]

#[cfg(test)]
mod assertions;
#[cfg(test)]
mod cuts;
#[cfg(test)]
mod decoder;
#[cfg(test)]
mod engine;
#[cfg(test)]
mod legacy;
#[cfg(test)]
mod long;
#[cfg(test)]
mod reader;
#[cfg(test)]
mod reads;
#[cfg(test)]
mod records;
