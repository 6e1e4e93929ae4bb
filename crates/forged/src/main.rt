// Reads traces on standard input and writes what the port answers. What it is held to is document 01, where the
// original has nothing to say.

#![tactic(auto)]

fn main() {
    replay::run_input();
}
