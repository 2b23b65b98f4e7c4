#![tactic(auto)]

// The ciphers and the seals tried on published vectors and on results of independent programs.
#[cfg(test)]
mod constant;
#[cfg(test)]
mod seals;
#[cfg(test)]
mod seed_vectors;
#[cfg(test)]
mod triple_des;
#[cfg(test)]
mod vectors;
