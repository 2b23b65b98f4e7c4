#![tactic(auto)]

// Issue, power-on and the report tried on examples whose outcome was worked out by hand, from docs/CARD.md.
#[cfg(test)]
mod field;
#[cfg(test)]
mod issuing;
#[cfg(test)]
mod states;
