// The number that a project is generated of.
ghost use Rattle.std.specs.Prelude.{◌≡◌, ◌≤◌, is_some, IfSome};
ghost use Rattle.lux_top.specs.ProjectNumbers.{is_project_number};

use std::marker::Model;

/// The greatest number that gives a project.
const MOST_NUMBER: u64 = 9_999;

/// The number that a project is generated of: 0 to 9,999. Contracts see the number.
#[derive(Clone, Copy, Debug)]
pub struct ProjectNumber {
    number: u32,
}

impl Model for ProjectNumber {
    ghost use Rattle.std.specs.Prelude.{ℕ, ◌≤◌};

    ghost Value = { ℕ };

    ghost view = { λ n. n.number };

    ghost invariant = { λ n. n.number ≤ 9999 };

    ghost inverse = { λ number. record { number = number } };
}

impl ProjectNumber {
    /// That number, where it is at most 9,999.
    pub fn new(number: u64) -> Option<ProjectNumber>
        ensures exactly { is_some result ≡ is_project_number number }
        ensures value { IfSome result (λ found. found ≡ number) }
    {
        if number <= MOST_NUMBER {
            Some(ProjectNumber {
                number: number as u32,
            })
        } else {
            None
        }
    }

    /// The number.
    pub fn get(self) -> u32
        ensures value { result ≡ self }
        ensures few { result ≤ 9999 }
    {
        self.number
    }
}
