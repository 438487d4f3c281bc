// The report as rows of CSV.
ghost use Rattle.std.specs.Prelude.{◌≡◌, ◌<◌, [], ◌∷◌, length, OnOk, IfOk};
ghost use Rattle.lux_report.specs.Facts.{CoversPatches, CoversChecks, AreWhole};
ghost use Rattle.lux_report.specs.Report.{row, header_row, total_row, patch_rows, all_patch_rows, average_row, uniformity_row, point_row, point_rows, check_rows, all_check_rows, status_row, report_csv};
ghost use Rattle.lux_report.specs.Shapes.{IsBetweenRows, Writes};

use crate::Facts;
use crate::row_writer::RowWriter;
use crate::summary::{average_limit, total_flux, verdict_word};
use compliance::{CheckSpec, Judged, worst};
use flux_ledger::Ledger;
use itoa::Integer;
use project_file::Project;
use std::alloc::{AllocError, Global};

// No two rows of a patch are longer.
const MOST_ROWS_BYTES: usize = 192;

// Writes the names of the fields.
fn write_header(rows: &mut RowWriter) -> Result<(), AllocError>
    requires { IsBetweenRows rows.old.writer }
    ensures { OnOk result (Writes rows.old rows.new (header_row ∷ [])) }
{
    rows.begin();
    rows.field("row")?;
    rows.field("name")?;
    rows.field("index")?;
    rows.field("a")?;
    rows.field("b")?;
    rows.field("c")?;
    rows.field("verdict")?;
    rows.end()?;
    Ok(())
}

// Writes a row of three numbers.
fn write_numbers<N: Integer>(
    rows: &mut RowWriter,
    kind: &str,
    name: &str,
    index: usize,
    numbers: (N, N, N),
    verdict: &str,
) -> Result<(), AllocError>
    requires { IsBetweenRows rows.old.writer }
    ensures { OnOk result (Writes rows.old rows.new (row kind.now name.now index (N.text numbers.0) (N.text numbers.1) (N.text numbers.2) verdict.now ∷ [])) }
{
    rows.start(kind, name, index)?;
    rows.number(numbers.0)?;
    rows.number(numbers.1)?;
    rows.number(numbers.2)?;
    rows.field(verdict)?;
    rows.end()
}

// Writes the row of all patches together.
fn write_total(rows: &mut RowWriter, ledger: &Ledger) -> Result<(), AllocError>
    requires { IsBetweenRows rows.old.writer }
    ensures { OnOk result (Writes rows.old rows.new (total_row ledger.now ∷ [])) }
{
    let direct = total_flux(ledger.direct.as_slice());
    let numbers = (direct, u128::from(ledger.wins), u128::from(ledger.parts));
    write_numbers(rows, "total", "", 0, numbers, "")
}

// Writes the rows of one patch.
fn write_patch(
    rows: &mut RowWriter,
    ledger: &Ledger,
    facts: &Facts,
    patch: usize,
) -> Result<(), AllocError>
    requires between { IsBetweenRows rows.old.writer }
    requires patches { CoversPatches ledger.now facts.now }
    requires patch { patch < length ledger.now.direct }
    ensures { OnOk result (Writes rows.old rows.new (patch_rows ledger.now facts.now patch)) }
{
    let direct = ledger.direct.get(patch);
    let taken = ledger.taken.get(patch);
    let residual = ledger.residual.get(patch);
    write_numbers(rows, "patch", "", patch, (direct, taken, residual), "")?;
    let (low, high) = facts.bounds()[patch];
    write_numbers(
        rows,
        "bounds",
        "",
        patch,
        (ledger.err.get(patch), low, high),
        "",
    )?;
    Ok(())
}

// Writes the rows of each patch.
fn write_patches(rows: &mut RowWriter, ledger: &Ledger, facts: &Facts) -> Result<(), AllocError>
    requires between { IsBetweenRows rows.old.writer }
    requires patches { CoversPatches ledger.now facts.now }
    ensures { OnOk result (Writes rows.old rows.new (all_patch_rows ledger.now facts.now)) }
{
    for patch in 0..ledger.direct.len() {
        write_patch(rows, ledger, facts, patch)?;
    }
    Ok(())
}

// Writes what a check is answered.
fn write_judged(rows: &mut RowWriter, check: &CheckSpec, judged: Judged) -> Result<(), AllocError>
    requires { IsBetweenRows rows.old.writer }
    ensures { OnOk result (Writes rows.old rows.new (average_row check.now judged ∷ uniformity_row check.now judged ∷ [])) }
{
    let name = check.name.as_str();
    let (low, high) = judged.average;
    let numbers = (low, high, u128::from(average_limit(check)));
    let verdict = verdict_word(judged.average_verdict);
    write_numbers(rows, "average", name, 0, numbers, verdict)?;
    let (low, high) = judged.uniformity;
    let verdict = verdict_word(judged.uniformity_verdict);
    write_numbers(
        rows,
        "uniformity",
        name,
        0,
        (low, high, check.uniformity),
        verdict,
    )?;
    Ok(())
}

// Writes the row of one point of a check.
fn write_point(
    rows: &mut RowWriter,
    name: &str,
    points: &[(u128, u128)],
    point: usize,
) -> Result<(), AllocError>
    requires between { IsBetweenRows rows.old.writer }
    requires point { point < length points.now }
    ensures { OnOk result (Writes rows.old rows.new (point_row name.now points.now point ∷ [])) }
{
    let (low, high) = points[point];
    rows.start("point", name, point)?;
    rows.number(low)?;
    rows.number(high)?;
    rows.field("")?;
    rows.field("")?;
    rows.end()
}

// Writes the row of each point of a check.
fn write_points(rows: &mut RowWriter, name: &str, points: &[(u128, u128)]) -> Result<(), AllocError>
    requires { IsBetweenRows rows.old.writer }
    ensures { OnOk result (Writes rows.old rows.new (point_rows name.now points.now)) }
{
    for point in 0..points.len() {
        write_point(rows, name, points, point)?;
    }
    Ok(())
}

// Writes the rows of one check.
fn write_check(
    rows: &mut RowWriter,
    check: &CheckSpec,
    points: &[(u128, u128)],
    judged: Judged,
) -> Result<(), AllocError>
    requires { IsBetweenRows rows.old.writer }
    ensures { OnOk result (Writes rows.old rows.new (check_rows check.now points.now judged)) }
{
    write_judged(rows, check, judged)?;
    write_points(rows, check.name.as_str(), points)?;
    Ok(())
}

// Writes the rows of each check.
fn write_checks(rows: &mut RowWriter, project: &Project, facts: &Facts) -> Result<(), AllocError>
    requires between { IsBetweenRows rows.old.writer }
    requires checks { CoversChecks project.now facts.now }
    ensures { OnOk result (Writes rows.old rows.new (all_check_rows project.now facts.now)) }
{
    let checks = project.checks();
    for number in 0..checks.len() {
        write_check(
            rows,
            &checks[number],
            facts.points(number),
            facts.judged()[number],
        )?;
    }
    Ok(())
}

// Writes the row of the status.
fn write_status(rows: &mut RowWriter, facts: &Facts) -> Result<(), AllocError>
    requires { IsBetweenRows rows.old.writer }
    ensures { OnOk result (Writes rows.old rows.new (status_row facts.now ∷ [])) }
{
    rows.start("status", "", 0)?;
    rows.number(worst(facts.judged()).status())?;
    rows.field("")?;
    rows.field("")?;
    rows.field("")?;
    rows.end()
}

/// The report of a run as CSV: a header, the totals, the rows of the patches and of the checks, and the status of their
/// verdicts.
pub fn report_csv(
    alloc: Global,
    project: &Project,
    ledger: &Ledger,
    facts: &Facts,
) -> Result<Vec<u8>, AllocError>
    requires { AreWhole project.now ledger.now facts.now }
    ensures { IfOk result (λ text. text.items ≡ report_csv project.now ledger.now facts.now) }
{
    let patches = ledger.direct.len();
    let room = patches.saturating_add(1).saturating_mul(MOST_ROWS_BYTES);
    let mut rows = RowWriter::new(alloc, room)?;
    write_header(&mut rows)?;
    write_total(&mut rows, ledger)?;
    write_patches(&mut rows, ledger, facts)?;
    write_checks(&mut rows, project, facts)?;
    write_status(&mut rows, facts)?;
    rows.into_bytes()
}
