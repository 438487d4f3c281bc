// What doesn't count at the ends of a text or of a line.
ghost use Rattle.std.specs.Prelude.{◌≡◌, ◌≤◌, length};
ghost use Rattle.lux_lines.specs.Ends.{body, without_spaces, without_suffix, without_mark, is_space, is_ending};

/// What is read of a file: without blanks, tabs, CR and LF at its end, then without one byte 0x1A that is last, then
/// without blanks, tabs, CR and LF once more.
#[tactic(auto, unfolding(crate::specs::Ends::body))]
pub fn body(text: &[u8]) -> &[u8]
    ensures value { result.now ≡ body text.now }
    ensures len { length result.now ≤ length text.now }
{
    without_endings(without_mark(without_endings(text)))
}

/// Without blanks and tabs at both ends.
pub fn trim(text: &[u8]) -> &[u8]
    ensures { result.now ≡ without_spaces text.now }
{
    let mut at = 0;
    while at < text.len() && is_space(text[at]) {
        at += 1;
    }
    trim_end(&text[at..])
}

/// Without blanks and tabs at the end.
pub fn trim_end(text: &[u8]) -> &[u8]
    ensures { result.now ≡ without_suffix is_space text.now }
{
    let mut len = text.len();
    while len > 0 && is_space(text[len - 1]) {
        len -= 1;
    }
    &text[..len]
}

fn without_endings(text: &[u8]) -> &[u8]
    ensures value { result.now ≡ without_suffix is_ending text.now }
    ensures len { length result.now ≤ length text.now }
{
    let mut len = text.len();
    while len > 0 && is_ending(text[len - 1]) {
        len -= 1;
    }
    &text[..len]
}

fn without_mark(text: &[u8]) -> &[u8]
    ensures value { result.now ≡ without_mark text.now }
    ensures len { length result.now ≤ length text.now }
{
    match text {
        [front @ .., 0x1A] => front,
        _ => text,
    }
}

fn is_space(byte: u8) -> bool
    ensures { result ≡ is_space byte }
{
    byte == b' ' || byte == b'\t'
}

fn is_ending(byte: u8) -> bool
    ensures { result ≡ is_ending byte }
{
    byte == b' ' || byte == b'\t' || byte == b'\r' || byte == b'\n'
}
