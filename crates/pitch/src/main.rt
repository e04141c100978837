// The pitch loop's story, step by step.
#![tactic(auto)]

mod story;
mod text;

fn main() {
    story::tell();
}
