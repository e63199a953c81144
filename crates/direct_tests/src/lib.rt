//! Tests of calls that no script makes: a volume's slots and rooms, circles bit by bit, readers and writers that fail.
#![tactic(auto)]

#[cfg(test)]
mod circles;
#[cfg(test)]
mod faults;
#[cfg(test)]
mod faulty;
#[cfg(test)]
mod slots;
#[cfg(test)]
mod volumes;
#[cfg(test)]
mod writers;
