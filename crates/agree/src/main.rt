// Compares the stitch chart of an intarsia panel with the carriage program that should knit it.
#![tactic(auto)]

mod panel;
mod parts;
mod report;

use compare::Comparison;
use grid::Cell;
use lists::{Chart, PassList};
use report::Report;

fn run(rt: &HostRuntime) -> anyhow::Result<()> {
    let stitches = panel::stitches(rt.alloc(), panel::PICTURE)?;
    let program = panel::program(rt.alloc(), &panel::RUNS)?;
    let workspace = Cell::workspace(panel::LOW, panel::HIGH)?;
    let chart = Chart::new(panel::LEFT, panel::FIRST, panel::WIDTH, stitches.as_slice());
    let passes = PassList::new(program.as_slice());
    let bytes = stitches.len();
    let width = panel::WIDTH;
    let count = program.len();
    println!(rt; "chart: {bytes} bytes in rows of {width}")?;
    println!(rt; "carriage program: {count} passes")?;
    let compared = Comparison {
        first: &chart,
        second: &passes,
    };
    Report {
        compared,
        workspace,
    }
    .print(rt)?;
    Ok(())
}

fn main(rt: HostRuntime) -> anyhow::Result<()> {
    run(&rt)
}
