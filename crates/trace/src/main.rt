// Reads traces on standard input and writes what the port answers. What it is held to is the original's answers.

#![tactic(auto)]

fn main() {
    replay::run_input();
}
