// Text as bytes, for programs that read calls and print answers: a line is cut at a byte, a decimal number is read from a part or put into a lent buffer.
// Every function takes any bytes: what is not there is an empty part or `None`, and bytes that do not fit are left out.
#![tactic(auto)]

pub mod numbers;
pub mod parts;
pub mod puts;
