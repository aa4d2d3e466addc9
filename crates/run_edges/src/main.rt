// Runs the floors text and number on edge cases and damaged input: what they answer, a line each.
#![tactic(auto)]

mod numbers;
mod texts;

fn main() {
    numbers::say_all();
    texts::say_all();
}
