// Tests that run the proved code on drawn yards and rows and compare it with naive computations, and on contexts whose bases are known.
#![tactic(auto)]

#[cfg(test)]
mod answers;
#[cfg(test)]
mod drawing;
#[cfg(test)]
mod judge;
#[cfg(test)]
mod known;
#[cfg(test)]
mod least;
#[cfg(test)]
mod naive;
#[cfg(test)]
mod rows;
#[cfg(test)]
mod yards;
