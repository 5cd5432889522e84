// Runs the table of cases whose answers are those of the published Rust. A program of its own beside `vectors`, for its own input and stored output.
#![tactic(auto)]

use cases::run_table;

fn main(rt: HostRuntime) -> anyhow::Result<()> {
    run_table(&rt)
}
