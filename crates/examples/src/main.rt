//! The programs that the README, the guide and the reference quote, one a module: each module is
//! what the `main.rt` of such a program holds, and its `main` is called here. That of several
//! languages is `localization` of `example_callers`.
#![tactic(auto)]

mod bundle;
mod desk;
mod edit;
mod guide;
mod hello;

use anyhow::Result;
use example_callers::localization;

fn main(rt: HostRuntime) -> Result<()> {
    println!(rt; "== hello")?;
    hello::main(rt)?;
    println!(rt; "== guide")?;
    guide::main(rt)?;
    println!(rt; "== bundle")?;
    bundle::main(rt)?;
    println!(rt; "== edit")?;
    edit::main(rt)?;
    println!(rt; "== desk")?;
    desk::main(rt)?;
    println!(rt; "== localization")?;
    localization::main(rt)
}
