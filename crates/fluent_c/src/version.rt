//! Which library this is.

ghost use Rattle.std.specs.Prelude.{◌≡◌};
ghost use Rattle.fluent_c.specs.declared.TheConstants.{FLUENT_VERSION};

use crate::FLUENT_VERSION;

/// The version of the library, [`FLUENT_VERSION`]: that of the header may be another.
#[unsafe(no_mangle)]
pub extern "C" fn fluent_version() -> u32
    ensures { result ≡ FLUENT_VERSION }
{
    FLUENT_VERSION
}
