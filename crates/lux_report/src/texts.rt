// The text report.
ghost use Rattle.std.specs.Prelude.{◌≡◌, ◌++◌, ◌<◌, length, codes, OnOk, IfOk};
ghost use Rattle.flux_ledger.specs.Balance.{HasPatches};
ghost use Rattle.lux_report.specs.Facts.{CoversPatches, CoversChecks, AreWhole};
ghost use Rattle.lux_report.specs.Report.{head_lines, accounts_text, patch_line, patch_lines, point_line, point_lines, judged_line, name_line, check_lines, all_check_lines, status_line, report_text};

use crate::Facts;
use crate::summary::{average_limit, total_flux, verdict_word};
use compliance::{CheckSpec, Judged, Verdict, worst};
use flux_ledger::Ledger;
use itoa::Integer;
use lux_texts::{push_number, push_word};
use project_file::Project;
use std::alloc::{AllocError, Global};

// No line of a patch is longer.
const MOST_LINE_BYTES: usize = 192;

// Appends the lines before those of the patches.
fn push_head(
    text: &mut Vec<u8>,
    project: &Project,
    ledger: &Ledger,
    facts: &Facts,
) -> Result<(), AllocError>
    ensures { OnOk result (text.new.items ≡ text.old.items ++ head_lines project.now ledger.now facts.now) }
{
    let direct = ledger.direct.as_slice();
    push_number(text, b"lux report 1\npatches ", direct.len())?;
    push_number(text, b"\nluminaires ", project.fixtures().len())?;
    push_number(text, b"\nshooters ", facts.shooters())?;
    push_number(text, b"\nthreshold ", project.threshold())?;
    push_number(text, b"\ndirect ", total_flux(direct))?;
    push_number(text, b"\nwins ", ledger.wins)?;
    push_number(text, b"\nparts ", ledger.parts)?;
    text.extend_from_slice(b"\n")?;
    Ok(())
}

// Appends the two ends of an interval.
fn push_ends<N: Integer>(text: &mut Vec<u8>, ends: (N, N)) -> Result<(), AllocError>
    ensures { OnOk result (text.new.items ≡ text.old.items ++ (codes " low " ++ N.text ends.0 ++ codes " high " ++ N.text ends.1)) }
{
    push_number(text, b" low ", ends.0)?;
    push_number(text, b" high ", ends.1)
}

// Appends what the ledger has of one patch.
fn push_accounts(text: &mut Vec<u8>, ledger: &Ledger, patch: usize) -> Result<(), AllocError>
    requires lengths { HasPatches (length ledger.now.direct) ledger.now }
    requires patch { patch < length ledger.now.direct }
    ensures { OnOk result (text.new.items ≡ text.old.items ++ accounts_text ledger.now patch) }
{
    push_number(text, b"patch ", patch)?;
    push_number(text, b" direct ", ledger.direct.get(patch))?;
    push_number(text, b" taken ", ledger.taken.get(patch))?;
    push_number(text, b" residual ", ledger.residual.get(patch))?;
    push_number(text, b" err ", ledger.err.get(patch))
}

// Appends the line of one patch.
fn push_patch(
    text: &mut Vec<u8>,
    ledger: &Ledger,
    facts: &Facts,
    patch: usize,
) -> Result<(), AllocError>
    requires patches { CoversPatches ledger.now facts.now }
    requires patch { patch < length ledger.now.direct }
    ensures { OnOk result (text.new.items ≡ text.old.items ++ patch_line ledger.now facts.now patch) }
{
    push_accounts(text, ledger, patch)?;
    push_ends(text, facts.bounds()[patch])?;
    text.extend_from_slice(b"\n")?;
    Ok(())
}

// Appends the line of each patch.
fn push_patches(text: &mut Vec<u8>, ledger: &Ledger, facts: &Facts) -> Result<(), AllocError>
    requires { CoversPatches ledger.now facts.now }
    ensures { OnOk result (text.new.items ≡ text.old.items ++ patch_lines ledger.now facts.now) }
{
    for patch in 0..ledger.direct.len() {
        push_patch(text, ledger, facts, patch)?;
    }
    Ok(())
}

// Appends the line of a value that was judged.
fn push_judged(
    text: &mut Vec<u8>,
    value: &[u8],
    ends: (u128, u128),
    limit: u64,
    verdict: Verdict,
) -> Result<(), AllocError>
    ensures { OnOk result (text.new.items ≡ text.old.items ++ judged_line value.now ends limit verdict) }
{
    text.extend_from_slice(value)?;
    push_ends(text, ends)?;
    push_number(text, b" limit ", limit)?;
    push_word(text, b" ", verdict_word(verdict))?;
    text.extend_from_slice(b"\n")?;
    Ok(())
}

// Appends the line of one point of a check.
fn push_point(text: &mut Vec<u8>, points: &[(u128, u128)], point: usize) -> Result<(), AllocError>
    requires { point < length points.now }
    ensures { OnOk result (text.new.items ≡ text.old.items ++ point_line points.now point) }
{
    push_number(text, b"point ", point)?;
    push_ends(text, points[point])?;
    text.extend_from_slice(b"\n")?;
    Ok(())
}

// Appends the line of each point of a check.
fn push_points(text: &mut Vec<u8>, points: &[(u128, u128)]) -> Result<(), AllocError>
    ensures { OnOk result (text.new.items ≡ text.old.items ++ point_lines points.now) }
{
    for point in 0..points.len() {
        push_point(text, points, point)?;
    }
    Ok(())
}

// Appends the line with the name of a check.
fn push_name(text: &mut Vec<u8>, check: &CheckSpec, points: usize) -> Result<(), AllocError>
    ensures { OnOk result (text.new.items ≡ text.old.items ++ name_line check.now points) }
{
    push_word(text, b"check ", check.name.as_str())?;
    push_number(text, b" points ", points)?;
    text.extend_from_slice(b"\n")?;
    Ok(())
}

// Appends the lines of one check.
fn push_check(
    text: &mut Vec<u8>,
    check: &CheckSpec,
    points: &[(u128, u128)],
    judged: Judged,
) -> Result<(), AllocError>
    ensures { OnOk result (text.new.items ≡ text.old.items ++ check_lines check.now points.now judged) }
{
    push_name(text, check, points.len())?;
    let limit = average_limit(check);
    push_judged(
        text,
        b"average",
        judged.average,
        limit,
        judged.average_verdict,
    )?;
    let (low, high) = judged.uniformity;
    let ends = (u128::from(low), u128::from(high));
    let limit = u64::from(check.uniformity);
    push_judged(text, b"uniformity", ends, limit, judged.uniformity_verdict)?;
    push_points(text, points)?;
    Ok(())
}

// Appends the lines of each check.
fn push_checks(text: &mut Vec<u8>, project: &Project, facts: &Facts) -> Result<(), AllocError>
    requires { CoversChecks project.now facts.now }
    ensures { OnOk result (text.new.items ≡ text.old.items ++ all_check_lines project.now facts.now) }
{
    let checks = project.checks();
    for number in 0..checks.len() {
        push_check(
            text,
            &checks[number],
            facts.points(number),
            facts.judged()[number],
        )?;
    }
    Ok(())
}

// Appends the line of the status.
fn push_status(text: &mut Vec<u8>, facts: &Facts) -> Result<(), AllocError>
    ensures { OnOk result (text.new.items ≡ text.old.items ++ status_line facts.now) }
{
    push_number(text, b"status ", worst(facts.judged()).status())?;
    text.extend_from_slice(b"\n")?;
    Ok(())
}

/// The report of a run in lines: what the run was, its patches, its checks, and the status of their verdicts.
pub fn report_text(
    alloc: Global,
    project: &Project,
    ledger: &Ledger,
    facts: &Facts,
) -> Result<Vec<u8>, AllocError>
    requires { AreWhole project.now ledger.now facts.now }
    ensures { IfOk result (λ text. text.items ≡ report_text project.now ledger.now facts.now) }
{
    let patches = ledger.direct.len();
    let room = patches.saturating_add(1).saturating_mul(MOST_LINE_BYTES);
    let mut text = Vec::with_capacity(alloc, room)?;
    push_head(&mut text, project, ledger, facts)?;
    push_patches(&mut text, ledger, facts)?;
    push_checks(&mut text, project, facts)?;
    push_status(&mut text, facts)?;
    Ok(text)
}
