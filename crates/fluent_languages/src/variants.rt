//! The variants of a tag.
// Its definitions are in `specs/Tags.antt`, which names this type, so the code that keeps to them
// is in `walking.rt`.
ghost use Rattle.std.specs.Str.{IsAscii};

/// The variants of a tag in their order, each as it was written, in either case.
#[derive(Clone, Copy, Debug)]
pub struct Variants<'t> {
    /// Those that are left, with the separators before them.
    pub(crate) rest: &'t str,
    ghost is_ascii: { IsAscii rest.now },
}
