// The tables of a project file, and the names of their fields.
ghost use Rattle.std.specs.Prelude.{◌≡◌};
ghost use Rattle.std.specs.List.{list_any};
ghost use Rattle.std.specs.Str.{bytes_eq};
ghost use Rattle.project_file.specs.Tables.{fields_of, top_fields, room_fields, check_fields};

use crate::versions::Version;

/// A table of a project file; luminaires, checks and regions are numbered from 0.
#[derive(Clone, Copy, Debug)]
pub enum TableAt {
    /// The table of the whole file.
    Top(Version),
    /// The table `room`.
    Room(Version),
    /// The table `solver`.
    Solver,
    /// One of the tables `luminaire`.
    Luminaire(usize),
    /// One of the tables `check`.
    Check(usize),
    /// One of the tables `region`.
    Region(usize),
}

impl TableAt {
    /// Whether the table has a field of this name.
    pub fn has_field(self, name: &str) -> bool
        ensures { result ≡ list_any (λ f. bytes_eq name.now f.name) (fields_of self) }
    {
        match self {
            TableAt::Top(version) => is_top_field(name, version),
            TableAt::Room(version) => is_room_field(name, version),
            TableAt::Solver => name == "threshold",
            TableAt::Luminaire(_) => is_any(name, &["file", "x", "y", "z", "rotation", "level"]),
            TableAt::Check(_) => is_check_field(name),
            TableAt::Region(_) => is_any(name, &["surface", "u", "v", "reflectance"]),
        }
    }
}

fn is_top_field(name: &str, version: Version) -> bool
    ensures { result ≡ list_any (λ f. bytes_eq name.now f.name) (top_fields version) }
{
    match version {
        Version::One => is_any(name, &["version", "room", "solver", "luminaire", "check"]),
        Version::Two => {
            let names = ["version", "room", "solver", "luminaire", "check", "region"];
            is_any(name, &names)
        }
    }
}

#[tactic(auto, using(crate::proofs::KnownVersions::walls_name))]
fn is_room_field(name: &str, version: Version) -> bool
    ensures { result ≡ list_any (λ f. bytes_eq name.now f.name) (room_fields version) }
{
    let names = [
        "width", "depth", "height", "counts", "floor", "ceiling", "walls",
    ];
    is_any(name, &names)
}

fn is_check_field(name: &str) -> bool
    ensures { result ≡ list_any (λ f. bytes_eq name.now f.name) check_fields }
{
    let names = [
        "name",
        "x",
        "y",
        "z",
        "points",
        "maintenance",
        "average",
        "uniformity",
    ];
    is_any(name, &names)
}

fn is_any(name: &str, names: &[&str]) -> bool
    ensures { result ≡ list_any (λ other. bytes_eq name.now other.now) names.now }
{
    names.iter().any(|other| name == *other)
}
