// The tests that a web passes.
ghost use Rattle.std.specs.Prelude.{◌≡◌, ◌<◌, ◌^◌, nat_lt, length, position, IfSome};
ghost use Rattle.duties.specs.Duties.{first};
ghost use Rattle.photo_web.specs.Validity.{rises_at, first_unfit, plane_duties, gamma_duties, web_duties};

use crate::{FULL_TURN, HALF_TURN, MOST_GAMMAS, MOST_INTENSITY, MOST_PLANES, WebFault};

// Why some numbers are no web, if they aren't.
#[tactic(auto, using(duties::proofs::Orders::steps), unfolding(crate::specs::Validity::web_duties))]
pub(crate) fn web_fault(planes: &[u32], gammas: &[u32], values: &[u64]) -> Option<WebFault>
    requires planes { length planes.now < 2 ^ 32 }
    requires gammas { length gammas.now < 2 ^ 32 }
    ensures { result ≡ first (web_duties (record { planes = planes.now; gammas = gammas.now; values = values.now })) }
{
    if let Some(fault) = planes_fault(planes) {
        return Some(fault);
    }
    if let Some(fault) = gammas_fault(gammas) {
        return Some(fault);
    }
    if values.len() != planes.len() * gammas.len() {
        return Some(WebFault::Values);
    }
    if let Some(at) = first_too_bright(values) {
        return Some(WebFault::TooBright { at: at as u32 });
    }
    None
}

// The first place whose value is above the highest intensity.
fn first_too_bright(values: &[u64]) -> Option<usize>
    ensures value { result ≡ position (nat_lt (10 ^ 15)) values.now }
    ensures inside { IfSome result (λ at. at < length values.now) }
{
    values.iter().position(|value| *value > MOST_INTENSITY)
}

// Why some angles are no planes of a web, if they aren't.
#[tactic(auto, using(duties::proofs::Orders::steps), unfolding(crate::specs::Validity::plane_duties))]
fn planes_fault(planes: &[u32]) -> Option<WebFault>
    requires { length planes.now < 2 ^ 32 }
    ensures { result ≡ first (plane_duties planes.now) }
{
    if !planes.is_empty() && planes[0] != 0 {
        return Some(WebFault::Planes { at: 0 });
    }
    if let Some(at) = unfit_angle(planes, FULL_TURN) {
        return Some(WebFault::Planes { at });
    }
    let count = planes.len();
    if count < 2 || count > MOST_PLANES {
        return Some(WebFault::Planes { at: count as u32 });
    }
    if planes[count - 1] != FULL_TURN {
        return Some(WebFault::Planes {
            at: (count - 1) as u32,
        });
    }
    None
}

// Why some angles are no gammas of a web, if they aren't.
#[tactic(auto, using(duties::proofs::Orders::steps), unfolding(crate::specs::Validity::gamma_duties))]
fn gammas_fault(gammas: &[u32]) -> Option<WebFault>
    requires { length gammas.now < 2 ^ 32 }
    ensures { result ≡ first (gamma_duties gammas.now) }
{
    if let Some(at) = unfit_angle(gammas, HALF_TURN) {
        return Some(WebFault::Gammas { at });
    }
    let count = gammas.len();
    if count < 2 || count > MOST_GAMMAS {
        return Some(WebFault::Gammas { at: count as u32 });
    }
    None
}

// The first place whose angle isn't above the one before it or is above `most`.
fn unfit_angle(angles: &[u32], most: u32) -> Option<u32>
    requires { length angles.now < 2 ^ 32 }
    ensures { result ≡ first_unfit most angles.now }
{
    for (at, angle) in angles.iter().enumerate() {
        if !rises_at(angles, at) || *angle > most {
            return Some(at as u32);
        }
    }
    None
}

// Whether the angle at a place is above the one before it, if there is one.
fn rises_at(angles: &[u32], at: usize) -> bool
    requires { at < length angles.now }
    ensures { result ≡ rises_at angles.now at }
{
    at == 0 || angles[at - 1] < angles[at]
}
