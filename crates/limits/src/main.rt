//! Both sides of every limit, printed so that they can be compared.

#![tactic(auto)]

mod reading;

fn main(rt: HostRuntime) -> anyhow::Result<()> {
    reading::both_sides(&rt)
}
