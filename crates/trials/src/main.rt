// The trials (SPECIFICATION 11.1), run: each with its answer.
#![tactic(auto)]

fn main(rt: HostRuntime) {
    transcripts::file::run(&rt, b"trials");
}
