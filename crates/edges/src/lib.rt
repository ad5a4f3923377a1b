// Tests at the edges of what the libraries take: ends of ranges, missing entries, numbers that are no readings.
#![tactic(auto)]

#[cfg(test)]
mod agreeing;
#[cfg(test)]
mod damped;
#[cfg(test)]
mod quorums;
#[cfg(test)]
mod reading;
#[cfg(test)]
mod selecting;
#[cfg(test)]
mod wheel;
