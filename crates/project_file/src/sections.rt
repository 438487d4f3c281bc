// A table of a project file, and what its fields say.
ghost use Rattle.std.specs.Prelude.{◌≡◌, ◌≢◌, ◌≤◌, ◌<◌, ◌^◌, ◌-◌, List, [], ◌∷◌, map, length, true, if◌then◌else◌, ◌==◌, ◌&&◌, slice_get, Some, None, IfOk, IfErr, IfNone, IfSome, ◌++◌, string_bytes, is_some, codes, false, filter, not, option_copied};
ghost use Rattle.std.specs.List.{list_all, list_any, find};
ghost use Rattle.std.specs.BTreeMap as tree;
ghost use Rattle.std.specs.String.{string_cmp};
ghost use Rattle.std.specs.Str.{bytes_eq};
ghost use Rattle.std.specs.Option.{option_map_or};
ghost use Rattle.duties.specs.Duties.{Answers};
ghost use Rattle.toml.specs.Data.{get_member, as_integer, as_table};
ghost use Rattle.toml.specs.View.{view, items_view, table_view};
ghost use Rattle.lux_io.specs.Names.{IsName};
ghost use Rattle.project_file.specs.declared.faults.ProjFault.TheVariants as fault;
ghost use Rattle.project_file.specs.Names.{numbered, prefix, fitting_front, or_quotation_marks, fault_name};
ghost use Rattle.project_file.specs.FieldDuties.{member_keys, first_key, keys_duty, field_duty};
ghost use Rattle.project_file.specs.Tables.{fields_of};
ghost use Rattle.project_file.specs.Projects.{listed_table, number_at, four_numbers};
ghost use Rattle.project_file.specs.Shapes.{are_names};
ghost use Rattle.project_file.specs.Fields.{toml_items, required_field, optional_field, number as numbers, text as texts, table as tables, list, is_number_within, is_text_within, is_label_byte, is_label, is_label_text, has_exactly, has_at_most, is_any_value, toml_number, toml_text, toml_table, toml_list, is_kind};

use crate::ProjFault;
use crate::tables::TableAt;
use crate::values::{all_numbers, all_tables, four_of, is_label, three_of, two_of};
use lux_io::{Name, NameFault};
use std::alloc::{AllocError, Global};
use toml::{Table, Value};

/// A table of a project file, and which one it is.
#[derive(Clone, Copy)]
pub struct Section<'a> {
    pub alloc: Global,
    pub table_at: TableAt,
    pub table: &'a Table,
}

/// The value at a key of a table.
pub fn value_at<'a>(table: &'a Table, key: &str) -> Option<&'a Value>
    ensures none { IfNone result (get_member key.now (table_view table.now) ≡ None) }
    ensures some { IfSome result (λ value. get_member key.now (table_view table.now) ≡ Some (view value.now)) }
{
    table.get(key)
}

/// The table at a place of a list of tables.
pub fn listed_table(items: &[Value], number: usize) -> &Table
    requires tables { list_all (is_kind tables) (toml_items (items_view items.now)) ≡ true }
    requires within { number < length items.now }
    ensures { table_view result.now ≡ listed_table (toml_items (items_view items.now)) number }
{
    match items[number].as_table() {
        Some(table) => table,
        None => unreachable!(),
    }
}

/// The name that a text is.
pub fn copy_name(alloc: Global, text: &str) -> Result<Name, ProjFault>
    requires { are_names (text.now ∷ []) ≡ true }
    ensures memory { IfErr result (λ f. f ≡ fault.Memory) }
    ensures value { IfOk result (λ name. name ≡ text.now) }
{
    match Name::new(alloc, text) {
        Ok(name) => Ok(name),
        Err(NameFault::Memory) => Err(ProjFault::Memory),
        Err(NameFault::Length) => unreachable!(),
    }
}

// The path to a field of an element of a list.
fn numbered_path(alloc: Global, list: &str, number: usize, key: &str) -> Result<String, AllocError>
    ensures { IfOk result (λ path. string_bytes path ≡ numbered list.now number ++ key.now) }
{
    format!(in alloc; "{list}.{number}.{key}")
}

// The name that a path is written as.
fn name_of(alloc: Global, path: &str) -> Result<Name, AllocError>
    ensures { IfOk result (λ name. name ≡ or_quotation_marks (fitting_front path.now)) }
{
    let cut = &path[..path.floor_char_boundary(255)];
    match Name::new(alloc, or_quotation_marks(cut)) {
        Ok(name) => Ok(name),
        Err(NameFault::Memory) => Err(AllocError),
        Err(NameFault::Length) => unreachable!(),
    }
}

fn or_quotation_marks(text: &str) -> &str
    requires { length text.now ≤ 255 }
    ensures value { result.now ≡ or_quotation_marks text.now }
    ensures some { 1 ≤ length result.now }
    ensures few { length result.now ≤ 255 }
{
    if text.is_empty() { "\"\"" } else { text }
}

impl<'a> Section<'a> {
    // The path to a field.
    fn path(&self, key: &str) -> Result<String, AllocError>
        ensures { IfOk result (λ path. string_bytes path ≡ prefix self.now.table_at ++ key.now) }
    {
        match self.table_at {
            TableAt::Top(_) => String::from_str(self.alloc, key),
            TableAt::Room(_) => format!(in self.alloc; "room.{key}"),
            TableAt::Solver => format!(in self.alloc; "solver.{key}"),
            TableAt::Luminaire(number) => numbered_path(self.alloc, "luminaire", number, key),
            TableAt::Check(number) => numbered_path(self.alloc, "check", number, key),
            TableAt::Region(number) => numbered_path(self.alloc, "region", number, key),
        }
    }

    // The name of a field.
    #[tactic(auto, unfolding(crate::specs::Names::fault_name))]
    fn name(&self, key: &str) -> Result<Name, ProjFault>
        ensures name { IfOk result (λ name. name ≡ fault_name self.now.table_at key.now) }
        ensures memory { IfErr result (λ f. f ≡ fault.Memory) }
    {
        let path = self.path(key)?;
        Ok(name_of(self.alloc, path.as_str())?)
    }

    /// That each key of the table is one of its fields.
    #[tactic(auto, using(crate::proofs::Keys::first_of_keys), unfolding(crate::specs::FieldDuties::keys_duty))]
    pub fn check_keys(&self) -> Result<(), ProjFault>
        ensures { Answers fault.Memory (keys_duty self.now.table_at (table_view self.now.table.now)) result }
    {
        match self.first_unknown_key() {
            Some(key) => Err(self.key_fault(key.as_str())),
            None => Ok(()),
        }
    }

    // The first key that is no field of the table. The keys stand in the order of their bytes.
    fn first_unknown_key(&self) -> Option<&'a String>
        ensures first { option_copied result ≡ find (λ key. not (list_any (λ f. bytes_eq (string_bytes key) f.name) (fields_of self.now.table_at))) (tree.keys self.now.table.now) }
        ensures ordered { tree.IsOrdered string_cmp self.now.table.now }
    {
        self.table
            .keys()
            .find(|key| !self.table_at.has_field(key.as_str()))
    }

    // That a key is no field of the table.
    fn key_fault(&self, key: &str) -> ProjFault
        ensures { result ≢ fault.Memory → result ≡ fault.Key (fault_name self.now.table_at key.now) }
    {
        match self.name(key) {
            Ok(name) => ProjFault::Key { name },
            Err(fault) => fault,
        }
    }

    // That a field is absent.
    fn missing_fault(&self, key: &str) -> ProjFault
        ensures { result ≢ fault.Memory → result ≡ fault.Missing (fault_name self.now.table_at key.now) }
    {
        match self.name(key) {
            Ok(name) => ProjFault::Missing { name },
            Err(fault) => fault,
        }
    }

    // That a field is of another kind.
    fn kind_fault(&self, key: &str) -> ProjFault
        ensures { result ≢ fault.Memory → result ≡ fault.Kind (fault_name self.now.table_at key.now) }
    {
        match self.name(key) {
            Ok(name) => ProjFault::Kind { name },
            Err(fault) => fault,
        }
    }

    /// That a field is out of its range.
    pub fn range_fault(&self, key: &str) -> ProjFault
        ensures { result ≢ fault.Memory → result ≡ fault.Range (fault_name self.now.table_at key.now) }
    {
        match self.name(key) {
            Ok(name) => ProjFault::Range { name },
            Err(fault) => fault,
        }
    }

    /// The number of a field.
    #[tactic(auto, unfolding(crate::specs::FieldDuties::field_duty, duties::specs::Duties::unless, duties::specs::Duties::first))]
    pub fn number(&self, key: &str, least: u64, greatest: u64) -> Result<u64, ProjFault>
        ensures answer { Answers fault.Memory (field_duty self.now.table_at (table_view self.now.table.now) (required_field key.now numbers (is_number_within least greatest))) result }
        ensures value { IfOk result (λ n. n ≡ toml_number (get_member key.now (table_view self.now.table.now))) }
        ensures least { IfOk result (λ n. least ≤ n) }
        ensures greatest { IfOk result (λ n. n ≤ greatest) }
    {
        let Some(value) = value_at(self.table, key) else {
            return Err(self.missing_fault(key));
        };
        let Some(number) = value.as_integer() else {
            return Err(self.kind_fault(key));
        };
        match u64::try_from(number) {
            Ok(number) if least <= number && number <= greatest => Ok(number),
            _ => Err(self.range_fault(key)),
        }
    }

    /// The number of a field, in 32 bits.
    pub fn small(&self, key: &str) -> Result<u32, ProjFault>
        ensures answer { Answers fault.Memory (field_duty self.now.table_at (table_view self.now.table.now) (required_field key.now numbers (is_number_within 0 (2 ^ 32 - 1)))) result }
        ensures value { IfOk result (λ n. n ≡ toml_number (get_member key.now (table_view self.now.table.now))) }
    {
        self.small_within(key, 0, u32::MAX)
    }

    /// The number of a field, between two of 32 bits, both included.
    pub fn small_within(&self, key: &str, least: u32, greatest: u32) -> Result<u32, ProjFault>
        ensures answer { Answers fault.Memory (field_duty self.now.table_at (table_view self.now.table.now) (required_field key.now numbers (is_number_within least greatest))) result }
        ensures value { IfOk result (λ n. n ≡ toml_number (get_member key.now (table_view self.now.table.now))) }
        ensures least { IfOk result (λ n. least ≤ n) }
        ensures greatest { IfOk result (λ n. n ≤ greatest) }
    {
        Ok(self.number(key, least.into(), greatest.into())? as u32)
    }

    /// The text of a field, of 1 to 255 bytes.
    #[tactic(auto, unfolding(crate::specs::FieldDuties::field_duty, duties::specs::Duties::unless, duties::specs::Duties::first))]
    pub fn text(&self, key: &str) -> Result<&'a str, ProjFault>
        ensures answer { Answers fault.Memory (field_duty self.now.table_at (table_view self.now.table.now) (required_field key.now texts (is_text_within 1 255))) result }
        ensures value { IfOk result (λ text. text.now ≡ toml_text (get_member key.now (table_view self.now.table.now))) }
        ensures named { IfOk result (λ text. IsName text.now) }
    {
        let Some(value) = value_at(self.table, key) else {
            return Err(self.missing_fault(key));
        };
        let Some(text) = value.as_str() else {
            return Err(self.kind_fault(key));
        };
        if text.is_empty() || text.len() > 255 {
            return Err(self.range_fault(key));
        }
        Ok(text)
    }

    /// The text of a field that can name a check.
    #[tactic(auto, unfolding(crate::specs::FieldDuties::field_duty, duties::specs::Duties::unless, duties::specs::Duties::first))]
    pub fn label(&self, key: &str) -> Result<&'a str, ProjFault>
        ensures answer { Answers fault.Memory (field_duty self.now.table_at (table_view self.now.table.now) (required_field key.now texts is_label_text)) result }
        ensures value { IfOk result (λ text. text.now ≡ toml_text (get_member key.now (table_view self.now.table.now))) }
        ensures label { IfOk result (λ text. is_label text.now ≡ true) }
    {
        let Some(value) = value_at(self.table, key) else {
            return Err(self.missing_fault(key));
        };
        let Some(text) = value.as_str() else {
            return Err(self.kind_fault(key));
        };
        if !is_label(text) {
            return Err(self.range_fault(key));
        }
        Ok(text)
    }

    /// The table of a field.
    #[tactic(auto, unfolding(crate::specs::FieldDuties::field_duty, duties::specs::Duties::unless, duties::specs::Duties::first))]
    pub fn table(&self, key: &str) -> Result<&'a Table, ProjFault>
        ensures answer { Answers fault.Memory (field_duty self.now.table_at (table_view self.now.table.now) (required_field key.now tables is_any_value)) result }
        ensures value { IfOk result (λ t. table_view t.now ≡ toml_table (get_member key.now (table_view self.now.table.now))) }
    {
        let Some(value) = value_at(self.table, key) else {
            return Err(self.missing_fault(key));
        };
        match value.as_table() {
            Some(table) => Ok(table),
            None => Err(self.kind_fault(key)),
        }
    }

    /// The two numbers of a field, each in 32 bits.
    #[tactic(auto, using(crate::proofs::Lists::lists), unfolding(crate::specs::FieldDuties::field_duty, duties::specs::Duties::unless, duties::specs::Duties::first))]
    pub fn two(&self, key: &str) -> Result<(u32, u32), ProjFault>
        ensures answer { Answers fault.Memory (field_duty self.now.table_at (table_view self.now.table.now) (required_field key.now (list numbers) (has_exactly 2 (is_number_within 0 (2 ^ 32 - 1))))) result }
        ensures first { IfOk result (λ n. n.0 ≡ number_at (get_member key.now (table_view self.now.table.now)) 0) }
        ensures second { IfOk result (λ n. n.1 ≡ number_at (get_member key.now (table_view self.now.table.now)) 1) }
    {
        let Some(value) = value_at(self.table, key) else {
            return Err(self.missing_fault(key));
        };
        let Some(pair) = value.as_array() else {
            return Err(self.kind_fault(key));
        };
        if !all_numbers(pair) {
            return Err(self.kind_fault(key));
        }
        match two_of(pair) {
            Some(two) => Ok(two),
            None => Err(self.range_fault(key)),
        }
    }

    /// The three numbers of a field, each in 32 bits.
    #[tactic(auto, using(crate::proofs::Lists::lists), unfolding(crate::specs::FieldDuties::field_duty, duties::specs::Duties::unless, duties::specs::Duties::first))]
    pub fn three(&self, key: &str) -> Result<(u32, u32, u32), ProjFault>
        ensures answer { Answers fault.Memory (field_duty self.now.table_at (table_view self.now.table.now) (required_field key.now (list numbers) (has_exactly 3 (is_number_within 0 (2 ^ 32 - 1))))) result }
        ensures first { IfOk result (λ n. n.0 ≡ number_at (get_member key.now (table_view self.now.table.now)) 0) }
        ensures second { IfOk result (λ n. n.1 ≡ number_at (get_member key.now (table_view self.now.table.now)) 1) }
        ensures third { IfOk result (λ n. n.2 ≡ number_at (get_member key.now (table_view self.now.table.now)) 2) }
    {
        let Some(value) = value_at(self.table, key) else {
            return Err(self.missing_fault(key));
        };
        let Some(items) = value.as_array() else {
            return Err(self.kind_fault(key));
        };
        if !all_numbers(items) {
            return Err(self.kind_fault(key));
        }
        match three_of(items) {
            Some(three) => Ok(three),
            None => Err(self.range_fault(key)),
        }
    }

    /// The four numbers of a field, each in 32 bits.
    #[tactic(auto, using(crate::proofs::Lists::lists), unfolding(crate::specs::FieldDuties::field_duty, duties::specs::Duties::unless, duties::specs::Duties::first))]
    pub fn four(&self, key: &str) -> Result<[u32; 4], ProjFault>
        ensures answer { Answers fault.Memory (field_duty self.now.table_at (table_view self.now.table.now) (required_field key.now (list numbers) (has_exactly 4 (is_number_within 0 (2 ^ 32 - 1))))) result }
        ensures value { IfOk result (λ n. n ≡ four_numbers (toml_list (get_member key.now (table_view self.now.table.now)))) }
    {
        let Some(value) = value_at(self.table, key) else {
            return Err(self.missing_fault(key));
        };
        let Some(items) = value.as_array() else {
            return Err(self.kind_fault(key));
        };
        if !all_numbers(items) {
            return Err(self.kind_fault(key));
        }
        match four_of(items) {
            Some(four) => Ok(four),
            None => Err(self.range_fault(key)),
        }
    }

    /// The tables of a field, at most so many, and none where it is absent.
    #[tactic(auto, using(crate::proofs::Lists::lists), unfolding(crate::specs::FieldDuties::field_duty, duties::specs::Duties::unless, duties::specs::Duties::first))]
    pub fn tables(&self, key: &str, most: usize) -> Result<&'a [Value], ProjFault>
        ensures answer { Answers fault.Memory (field_duty self.now.table_at (table_view self.now.table.now) (optional_field key.now (list tables) (has_at_most most))) result }
        ensures value { IfOk result (λ items. toml_items (items_view items.now) ≡ toml_list (get_member key.now (table_view self.now.table.now))) }
        ensures few { IfOk result (λ items. length items.now ≤ most) }
        ensures tables { IfOk result (λ items. list_all (is_kind tables) (toml_items (items_view items.now)) ≡ true) }
    {
        let Some(value) = value_at(self.table, key) else {
            return Ok(&[]);
        };
        let Some(items) = value.as_array() else {
            return Err(self.kind_fault(key));
        };
        if !all_tables(items) {
            return Err(self.kind_fault(key));
        }
        if items.len() > most {
            return Err(self.range_fault(key));
        }
        Ok(items)
    }
}
