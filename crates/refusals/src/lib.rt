// Tests of the media and the page stores: each refusal in its order, buffers of odd lengths, and a medium of a maker's own.
#![tactic(auto)]

#[cfg(test)]
mod array_chip;
#[cfg(test)]
mod media_calls;
#[cfg(test)]
mod store_calls;
