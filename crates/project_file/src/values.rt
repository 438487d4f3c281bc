// What texts and lists of a project file say.
ghost use Rattle.std.specs.Prelude.{◌≡◌, ◌^◌, ◌-◌, length, true, false, if◌then◌else◌, ◌==◌, ◌&&◌, slice_get, Some, None, IfNone, IfSome, is_some};
ghost use Rattle.std.specs.List.{list_all};
ghost use Rattle.toml.specs.Data.{as_integer, as_table};
ghost use Rattle.toml.specs.View.{view, items_view};
ghost use Rattle.project_file.specs.Fields.{toml_items, is_number_within, is_label_byte, is_label, toml_number};
ghost use Rattle.project_file.specs.Projects.{four_numbers};

use toml::Value;

/// Whether a text can name a check.
#[tactic(auto, using(std::proofs::lemmas::Bool::Decides::nat_tests))]
pub fn is_label(text: &str) -> bool
    ensures { result ≡ is_label text.now }
{
    1 <= text.len() && text.len() <= 32 && are_label_bytes(text.as_bytes())
}

fn are_label_bytes(bytes: &[u8]) -> bool
    ensures { result ≡ list_all is_label_byte bytes.now }
{
    bytes.iter().all(|byte| is_label_byte(*byte))
}

fn is_label_byte(byte: u8) -> bool
    ensures { result ≡ is_label_byte byte }
{
    byte.is_ascii_alphanumeric() || byte == b'-' || byte == b'_'
}

/// Whether each value is a number.
pub fn all_numbers(items: &[Value]) -> bool
    ensures { result ≡ list_all (λ item. is_some (as_integer (view item))) items.now }
{
    items.iter().all(|item| item.is_integer())
}

/// Whether each value is a table.
pub fn all_tables(items: &[Value]) -> bool
    ensures { result ≡ list_all (λ item. is_some (as_table (view item))) items.now }
{
    items.iter().all(|item| item.is_table())
}

/// The two numbers of a list, where it has two, each of 32 bits.
#[tactic(auto, using(crate::proofs::Lists::lists, std::proofs::lemmas::Bool::Decides::nat_tests))]
pub fn two_of(items: &[Value]) -> Option<(u32, u32)>
    ensures none { IfNone result (((length (toml_items (items_view items.now)) == 2) && list_all (is_number_within 0 (2 ^ 32 - 1)) (toml_items (items_view items.now))) ≡ false) }
    ensures some { IfSome result (λ _. ((length (toml_items (items_view items.now)) == 2) && list_all (is_number_within 0 (2 ^ 32 - 1)) (toml_items (items_view items.now))) ≡ true) }
    ensures first { IfSome result (λ n. n.0 ≡ toml_number (slice_get (toml_items (items_view items.now)) 0)) }
    ensures second { IfSome result (λ n. n.1 ≡ toml_number (slice_get (toml_items (items_view items.now)) 1)) }
{
    if items.len() != 2 {
        return None;
    }
    let first = small_of(&items[0])?;
    let second = small_of(&items[1])?;
    Some((first, second))
}

/// The three numbers of a list, where it has three, each of 32 bits.
#[tactic(auto, using(crate::proofs::Lists::lists, std::proofs::lemmas::Bool::Decides::nat_tests))]
pub fn three_of(items: &[Value]) -> Option<(u32, u32, u32)>
    ensures none { IfNone result (((length (toml_items (items_view items.now)) == 3) && list_all (is_number_within 0 (2 ^ 32 - 1)) (toml_items (items_view items.now))) ≡ false) }
    ensures some { IfSome result (λ _. ((length (toml_items (items_view items.now)) == 3) && list_all (is_number_within 0 (2 ^ 32 - 1)) (toml_items (items_view items.now))) ≡ true) }
    ensures first { IfSome result (λ n. n.0 ≡ toml_number (slice_get (toml_items (items_view items.now)) 0)) }
    ensures second { IfSome result (λ n. n.1 ≡ toml_number (slice_get (toml_items (items_view items.now)) 1)) }
    ensures third { IfSome result (λ n. n.2 ≡ toml_number (slice_get (toml_items (items_view items.now)) 2)) }
{
    if items.len() != 3 {
        return None;
    }
    let first = small_of(&items[0])?;
    let second = small_of(&items[1])?;
    let third = small_of(&items[2])?;
    Some((first, second, third))
}

/// The four numbers of a list, where it has four, each of 32 bits.
#[tactic(auto, using(crate::proofs::Lists::lists, std::proofs::lemmas::Bool::Decides::nat_tests))]
pub fn four_of(items: &[Value]) -> Option<[u32; 4]>
    ensures none { IfNone result (((length (toml_items (items_view items.now)) == 4) && list_all (is_number_within 0 (2 ^ 32 - 1)) (toml_items (items_view items.now))) ≡ false) }
    ensures some { IfSome result (λ _. ((length (toml_items (items_view items.now)) == 4) && list_all (is_number_within 0 (2 ^ 32 - 1)) (toml_items (items_view items.now))) ≡ true) }
    ensures value { IfSome result (λ n. n ≡ four_numbers (toml_items (items_view items.now))) }
{
    if items.len() != 4 {
        return None;
    }
    let first = small_of(&items[0])?;
    let second = small_of(&items[1])?;
    let third = small_of(&items[2])?;
    let fourth = small_of(&items[3])?;
    Some([first, second, third, fourth])
}

// The number of a value, where it has 32 bits.
fn small_of(value: &Value) -> Option<u32>
    ensures { result ≡ (if is_number_within 0 (2 ^ 32 - 1) (view value.now) then Some (toml_number (Some (view value.now))) else None) }
{
    match u32::try_from(value.as_integer()?) {
        Ok(number) => Some(number),
        Err(_) => None,
    }
}
