//! The keys of a site file.

ghost use Rattle.std.specs.Prelude.{◌≡◌};

/// A key of a site file, in the order in which they are tried.
#[derive(Clone, Copy, Debug, PartialEq, Eq)]
pub enum Key {
    SegmentBlocks,
    LogSegments,
    Lines,
    Inodes,
    Volumes,
}

impl Key {
    ghost use Rattle.hl_site.specs.Key.{name_of};

    /// The key as it stands in the file.
    pub fn name(self) -> &'static str
        ensures { result.now ≡ name_of self }
    {
        match self {
            Key::SegmentBlocks => "segment_blocks",
            Key::LogSegments => "log_segments",
            Key::Lines => "lines",
            Key::Inodes => "inodes",
            Key::Volumes => "volumes",
        }
    }
}
