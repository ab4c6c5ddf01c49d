//! Tests that go through several crates: words, texts, failing devices and refused memory, by the top
//! call.
#![tactic(auto)]

#[cfg(test)]
mod devices;
#[cfg(test)]
mod growths;
#[cfg(test)]
mod networks;
#[cfg(test)]
mod scene;
#[cfg(test)]
mod texts;
#[cfg(test)]
mod words;
