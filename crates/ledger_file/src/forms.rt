// The numbers on a line of a form.
ghost use Rattle.std.specs.Prelude.{◌≡◌, ◌∷◌, [], Some, is_some, IfSome};
ghost use Rattle.std.specs.Option.{option_map};
ghost use Rattle.lux_lines.specs.Words.{words};
ghost use Rattle.ledger_file.specs.Forms.{count_form, patch_form, interval_form, have_form, numbers_of};
ghost use Rattle.ledger_file.specs.Forms.Place.{Word, Numeral};
ghost use Rattle.ledger_file.specs.Shapes.{Reads};

use lux_lines::{Words, numeral};

/// The numbers on the line of a patch.
#[derive(Clone, Copy, Debug)]
pub struct PatchLine {
    pub patch: u64,
    pub direct: u64,
    pub taken: u64,
    pub residual: u64,
    pub err: u64,
}

/// The numbers on the interval line of a patch.
#[derive(Clone, Copy, Debug)]
pub struct IntervalLine {
    pub patch: u64,
    pub low: u64,
    pub high: u64,
}

// The next word is this one.
fn keyword(words: &mut Words, expected: &[u8]) -> Option<()>
    ensures { Reads (Word expected.now ∷ []) words.old words.new (option_map (λ _. []) result) }
{
    match words.next() {
        Some(word) if word == expected => Some(()),
        _ => None,
    }
}

// The next word is a numeral.
fn number(words: &mut Words) -> Option<u64>
    ensures { Reads (Numeral ∷ []) words.old words.new (option_map (λ number. number ∷ []) result) }
{
    numeral(words.next()?)
}

// The next word is this one, and a numeral stands behind it.
fn field(words: &mut Words, expected: &[u8]) -> Option<u64>
    ensures { Reads (Word expected.now ∷ Numeral ∷ []) words.old words.new (option_map (λ number. number ∷ []) result) }
{
    keyword(words, expected)?;
    number(words)
}

// No word is left.
fn end(words: &mut Words) -> Option<()>
    ensures { is_some result ≡ have_form [] words.old }
{
    match words.next() {
        Some(_) => None,
        None => Some(()),
    }
}

/// The number on a line that is a keyword and a numeral.
pub fn count_line(line: &[u8], expected: &[u8]) -> Option<u64>
    ensures exactly { is_some result ≡ have_form (count_form expected.now) (words line.now) }
    ensures number { IfSome result (λ number. numbers_of (count_form expected.now) (words line.now) ≡ number ∷ []) }
{
    let mut words = Words::new(line);
    let number = field(&mut words, expected)?;
    end(&mut words)?;
    Some(number)
}

/// The numbers on the line of a patch.
pub fn patch_line(line: &[u8]) -> Option<PatchLine>
    ensures exactly { is_some result ≡ have_form patch_form (words line.now) }
    ensures numbers { IfSome result (λ p. numbers_of patch_form (words line.now) ≡ p.patch ∷ p.direct ∷ p.taken ∷ p.residual ∷ p.err ∷ []) }
{
    let mut words = Words::new(line);
    let patch = field(&mut words, b"patch")?;
    let direct = field(&mut words, b"direct")?;
    let taken = field(&mut words, b"taken")?;
    let residual = field(&mut words, b"residual")?;
    let err = field(&mut words, b"err")?;
    end(&mut words)?;
    Some(PatchLine {
        patch,
        direct,
        taken,
        residual,
        err,
    })
}

/// The numbers on the interval line of a patch.
pub fn interval_line(line: &[u8]) -> Option<IntervalLine>
    ensures exactly { is_some result ≡ have_form interval_form (words line.now) }
    ensures numbers { IfSome result (λ i. numbers_of interval_form (words line.now) ≡ i.patch ∷ i.low ∷ i.high ∷ []) }
{
    let mut words = Words::new(line);
    let patch = field(&mut words, b"interval")?;
    let low = number(&mut words)?;
    let high = number(&mut words)?;
    end(&mut words)?;
    Some(IntervalLine { patch, low, high })
}
