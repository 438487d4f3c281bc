// The versions of the format.
ghost use Rattle.std.specs.Prelude.{◌≡◌};
ghost use Rattle.project_file.specs.Versions.{version_numbered};

/// A version of the format of project files.
#[derive(Clone, Copy, Debug)]
pub enum Version {
    /// Version 1: all walls have one reflectance, and no surface has regions.
    One,
    /// Version 2.
    Two,
}

impl Version {
    /// The version of a number, where there is one.
    pub fn numbered(number: i64) -> Option<Version>
        ensures { result ≡ version_numbered number }
    {
        match number {
            1 => Some(Version::One),
            2 => Some(Version::Two),
            _ => None,
        }
    }
}
