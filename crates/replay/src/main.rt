// Replays stored lists of events, each with the answer that stands below it, and counts the answers that differ. A list
// with a wrong answer
// comes first.
#![tactic(auto)]

fn main(rt: HostRuntime) {
    transcripts::file::run(&rt, b"damaged");
    transcripts::file::run(&rt, b"transcripts");
}
