// Runs the table of cases whose answers were written from the rules. A program of its own beside `answers`, for its own input and stored output.
#![tactic(auto)]

use cases::run_table;

fn main(rt: HostRuntime) -> anyhow::Result<()> {
    run_table(&rt)
}
