/// The version of the frames of a log.
#[derive(Clone, Copy)]
pub(crate) enum Version {
    /// The first, which is no longer written.
    Old,
    /// That of today.
    New,
}
