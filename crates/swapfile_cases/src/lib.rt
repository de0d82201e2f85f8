// Tests in bulk of the swap file: what is read, refused and written, executed.
#![tactic(auto)]

#[cfg(test)]
mod data;
#[cfg(test)]
mod faults;
#[cfg(test)]
mod limits;
#[cfg(test)]
mod trips;
#[cfg(test)]
mod windows;
