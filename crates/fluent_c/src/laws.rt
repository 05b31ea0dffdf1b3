//! Laws of the calls: each function only carries a law, as its contract.

ghost use Rattle.fluent_c.specs.Calling.{PlainBundlesReplyAlike};

/// A bundle that was made without functions replies to
/// [`fluent_bundle_call`](crate::fluent_bundle_call), with any answers to calls, what it replies to
/// [`fluent_bundle_format`](crate::fluent_bundle_format).
pub fn plain_bundles_reply_alike()
    ensures { PlainBundlesReplyAlike }
{}
