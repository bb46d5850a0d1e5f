// Examples of the wire format, proved safe and ending and then run: what the writers write reads back, and what is
// not of the layout is refused. And a kind of seals that is made here, as a user of the library makes one.
#![tactic(auto)]

#[cfg(test)]
mod kinds;
#[cfg(test)]
mod samples;
#[cfg(test)]
mod tests;
