//! The code that the guide quotes, run once.

mod damaged;
mod missing;
mod porting;
mod values;

use anyhow::Result;
use fluent_bundle::{EnglishBundle, FluentResource};

const SOURCE: &str = "\
-brand = Kozhvadi
welcome = Welcome to { -brand }, { $name }.
items = { $count ->
    [0] Your cart is empty.
    [one] One item in your cart.
   *[other] { $count } items in your cart.
}
total = Total: { NUMBER($amount, minimumFractionDigits: 2) } EUR
checkout = Check out
    .title = Pay for { $count } items
";

pub fn main(rt: HostRuntime) -> Result<()> {
    porting::show(&rt)?;

    let resource = FluentResource::try_new(rt.alloc(), SOURCE)?;
    show(&rt, resource)?;

    damaged::show(&rt, "pay = Pay now\ntotal { $amount }\npay = Pay\n")
}

fn show(rt: &HostRuntime, resource: FluentResource<'static>) -> Result<()> {
    let mut bundle = EnglishBundle::english(rt.alloc());
    bundle.set_use_isolating(false);
    bundle.add_builtins()?;
    bundle.add_resource(&resource)?;
    values::show(rt, &bundle)?;
    missing::show(rt, &bundle)
}
