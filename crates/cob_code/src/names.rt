//! The names of data and CDs with what they stand for.
ghost use Rattle.std.specs.Prelude.{◌≡◌, ◌∷◌, ◌++◌, IfOk, OnOk, [], flat_map, map, option_map, slice_get, true};
ghost use Rattle.std.specs.List.{list_all};
ghost use Rattle.cob_data.specs.Layout.{field_occurs, input_sort, output_sort, table_number, table_of};
ghost use Rattle.cob_data.specs.Occurrences.{HasOccurrences, is_body_right, is_table_right};
ghost use Rattle.cob_meaning.specs.Layouts.{referent};
ghost use Rattle.cob_meaning.specs.Sources.{layout_of};
ghost use Rattle.cob_code.specs.inner.Referents.{body_entries, cd_entries, cd_referent, division_entries, input_entries, input_item, item_entries, listed, named, names_entries, output_entries, output_entry, output_item, seen};

use crate::digits::capped;
use crate::numbers::{number_in, numbers_of};
use crate::referent::{Referent, Shape};
use cob_data::{CdBody, CdEntry, DataDivision, InputClause, Item, ItemSort, OutputClause};
use cob_forms::Name;
use com_cd::{InField, OutField};
use indexmap::IndexMap;
use std::alloc::{AllocError, Global};
use std::marker::Model;

/// A name with what it stands for.
#[derive(Drop)]
pub(crate) struct Entry<'a> {
    name: &'a [u8],
    referent: Referent,
}

/// Adds a name.
fn push<'a>(
    name: &'a Name,
    referent: Referent,
    entries: &mut Vec<Entry<'a>>,
) -> Result<(), AllocError>
    ensures { OnOk result (listed entries.new.items ≡ listed entries.old.items ++ (name.now.text, referent) ∷ []) }
{
    entries.push(Entry {
        name: name.text.as_bytes(),
        referent,
    })?;
    Ok(())
}

/// Adds a name, if there is one.
fn push_named<'a>(
    name: &'a Option<Name>,
    shape: Shape,
    entries: &mut Vec<Entry<'a>>,
) -> Result<(), AllocError>
    ensures { OnOk result (listed entries.new.items ≡ listed entries.old.items ++ named name.now shape) }
{
    match name {
        Some(name) => push(name, Referent::Item(shape), entries),
        None => Ok(()),
    }
}

/// Adds the names of items.
fn push_items<'a>(items: &'a [Item], entries: &mut Vec<Entry<'a>>) -> Result<(), AllocError>
    ensures { OnOk result (listed entries.new.items ≡ listed entries.old.items ++ item_entries items.now) }
{
    'items: for item in items {
        let shape = Shape {
            length: item.place.length,
            sort: item.place.sort,
            occurs: None,
        };
        push_named(&item.name, shape, entries)?;
    }
    Ok(())
}

/// The sort of a field of an input CD.
fn input_sort(field: InField) -> ItemSort
    ensures { result ≡ input_sort field }
{
    match field {
        InField::Date | InField::Time | InField::Length | InField::Count => ItemSort::Numeric,
        InField::Queue
        | InField::Sub1
        | InField::Sub2
        | InField::Sub3
        | InField::Source
        | InField::EndKey
        | InField::Status => ItemSort::Alphanumeric,
    }
}

/// A field of an input CD as data.
fn input_item(field: InField) -> Shape
    ensures { result ≡ input_item field }
{
    Shape {
        length: field.width() as u32,
        sort: input_sort(field),
        occurs: None,
    }
}

/// Adds the names of the clauses of an input CD.
fn push_clauses<'a>(
    clauses: &'a [InputClause],
    entries: &mut Vec<Entry<'a>>,
) -> Result<(), AllocError>
    ensures { OnOk result (listed entries.new.items ≡ listed entries.old.items ++ input_entries clauses.now) }
{
    'clauses: for clause in clauses {
        let shape = input_item(clause.field);
        push(&clause.name, Referent::Item(shape), entries)?;
    }
    Ok(())
}

/// The fields of an input CD, in the order of its area.
const FIELDS: &[InField] = &[
    InField::Queue,
    InField::Sub1,
    InField::Sub2,
    InField::Sub3,
    InField::Date,
    InField::Time,
    InField::Source,
    InField::Length,
    InField::EndKey,
    InField::Status,
    InField::Count,
];

/// Adds the names of fields of an input CD in order.
fn push_in_order<'a>(
    names: &'a [Option<Name>],
    fields: &[InField],
    entries: &mut Vec<Entry<'a>>,
) -> Result<(), AllocError>
    ensures { OnOk result (listed entries.new.items ≡ listed entries.old.items ++ names_entries names.now fields.now) }
{
    let mut names = names;
    let mut fields = fields;
    'names: while let (Some((name, names_behind)), Some((field, fields_behind))) = (
        names.split_first(),
        fields.split_first(),
    ) {
        push_named(name, input_item(*field), entries)?;
        names = names_behind;
        fields = fields_behind;
    }
    Ok(())
}

/// How often destinations occur, if a clause says it.
fn table_number(clause: &OutputClause) -> Option<u32>
    requires { is_table_right clause.now ≡ true }
    ensures { result ≡ table_number clause.now }
{
    match clause {
        OutputClause::Table { occurs, .. } => Some(capped(occurs.digits.as_bytes()) as u32),
        _ => None,
    }
}

/// How often the destinations of an output CD occur, if it has a table.
fn table_of(clauses: &[OutputClause]) -> Option<u32>
    requires { list_all is_table_right clauses.now ≡ true }
    ensures { result ≡ table_of clauses.now }
{
    'clauses: for clause in clauses {
        if let Some(number) = table_number(clause) {
            return Some(number);
        }
    }
    None
}

/// The sort of a field of an output CD.
fn output_sort(field: OutField) -> ItemSort
    ensures { result ≡ output_sort field }
{
    match field {
        OutField::Count | OutField::Length => ItemSort::Numeric,
        OutField::Status | OutField::Error(_) | OutField::Destination(_) => ItemSort::Alphanumeric,
    }
}

/// How often a field of an output CD occurs, by how often its table does.
fn field_occurs(occurs: Option<u32>, field: OutField) -> Option<u32>
    ensures { result ≡ field_occurs occurs field }
{
    match field {
        OutField::Error(_) | OutField::Destination(_) => occurs,
        OutField::Count | OutField::Length | OutField::Status => None,
    }
}

/// A field of an output CD as data.
fn output_item(field: OutField, occurs: Option<u32>) -> Shape
    ensures { result ≡ output_item field occurs }
{
    Shape {
        length: field.width() as u32,
        sort: output_sort(field),
        occurs: field_occurs(occurs, field),
    }
}

/// Adds the name of a clause of an output CD.
fn push_output<'a>(
    clause: &'a OutputClause,
    occurs: Option<u32>,
    entries: &mut Vec<Entry<'a>>,
) -> Result<(), AllocError>
    ensures { OnOk result (listed entries.new.items ≡ listed entries.old.items ++ output_entry occurs clause.now) }
{
    match clause {
        OutputClause::Field { field, name, .. } => {
            push(name, Referent::Item(output_item(*field, occurs)), entries)
        }
        OutputClause::Table { .. } => Ok(()),
    }
}

/// Adds the names of the clauses of an output CD.
fn push_outputs<'a>(
    clauses: &'a [OutputClause],
    occurs: Option<u32>,
    entries: &mut Vec<Entry<'a>>,
) -> Result<(), AllocError>
    ensures { OnOk result (listed entries.new.items ≡ listed entries.old.items ++ output_entries occurs clauses.now) }
{
    'clauses: for clause in clauses {
        push_output(clause, occurs, entries)?;
    }
    Ok(())
}

/// What the name of a CD stands for.
fn cd_referent(body: &CdBody) -> Referent
    ensures { result ≡ cd_referent body.now }
{
    match body {
        CdBody::Input { .. } | CdBody::InputNames { .. } => Referent::InputCd,
        CdBody::Output { .. } => Referent::OutputCd,
    }
}

/// Adds the names of the fields of a CD.
fn push_body<'a>(body: &'a CdBody, entries: &mut Vec<Entry<'a>>) -> Result<(), AllocError>
    requires { is_body_right body.now ≡ true }
    ensures { OnOk result (listed entries.new.items ≡ listed entries.old.items ++ body_entries body.now) }
{
    match body {
        CdBody::Input { clauses, .. } => push_clauses(clauses.as_slice(), entries),
        CdBody::InputNames { names, .. } => push_in_order(names.as_slice(), FIELDS, entries),
        CdBody::Output { clauses } => {
            let occurs = table_of(clauses.as_slice());
            push_outputs(clauses.as_slice(), occurs, entries)
        }
    }
}

/// Adds the names of a CD: its own, those of its fields and those of its records.
fn push_cd<'a>(cd: &'a CdEntry, entries: &mut Vec<Entry<'a>>) -> Result<(), AllocError>
    requires { is_body_right cd.now.body ≡ true }
    ensures { OnOk result (listed entries.new.items ≡ listed entries.old.items ++ cd_entries cd.now) }
{
    push(&cd.name, cd_referent(&cd.body), entries)?;
    push_body(&cd.body, entries)?;
    push_items(cd.records.as_slice(), entries)
}

/// Adds the names of CDs.
fn push_cds<'a>(cds: &'a [CdEntry], entries: &mut Vec<Entry<'a>>) -> Result<(), AllocError>
    requires { list_all (λ cd. is_body_right cd.body) cds.now ≡ true }
    ensures { OnOk result (listed entries.new.items ≡ listed entries.old.items ++ flat_map cd_entries cds.now) }
{
    'cds: for cd in cds {
        push_cd(cd, entries)?;
    }
    Ok(())
}

/// The names of a program's data and CDs.
fn entries_of(alloc: Global, division: &DataDivision) -> Result<Vec<Entry<'_>>, AllocError>
    requires { HasOccurrences division.now }
    ensures { IfOk result (λ entries. listed entries.items ≡ division_entries division.now) }
{
    let mut entries = Vec::new(alloc);
    push_items(division.working_storage.as_slice(), &mut entries)?;
    push_cds(division.communication.as_slice(), &mut entries)?;
    Ok(entries)
}

/// The names alone.
fn names_of<'a>(alloc: Global, entries: &[Entry<'a>]) -> Result<Vec<&'a [u8]>, AllocError>
    ensures { IfOk result (λ names. map (λ name. name.now) names.items ≡ map (λ entry. entry.name.now) entries.now) }
{
    let mut names = Vec::new(alloc);
    'entries: for entry in entries {
        names.push(entry.name)?;
    }
    Ok(names)
}

/// The names of a program's divisions. Contracts see the layout that the divisions say.
#[derive(Drop)]
pub(crate) struct Names<'a> {
    division: &'a DataDivision,
    entries: Vec<Entry<'a>>,
    numbers: IndexMap<&'a [u8], usize>,
}

impl<'a> Model for Names<'a> {
    ghost use Rattle.std.specs.Prelude.{◌≡◌, map};
    ghost use Rattle.cob_meaning.specs.Layouts.{Layout};
    ghost use Rattle.cob_meaning.specs.Sources.{layout_of};
    ghost use Rattle.cob_code.specs.inner.Numbers.{AreNumbered};
    ghost use Rattle.cob_code.specs.inner.Referents.{division_entries, listed};

    ghost Value = { Layout };

    ghost view = { λ names. layout_of names.division.now };

    ghost invariant = { λ names. (listed names.entries.items ≡ division_entries names.division.now)
        × AreNumbered names.numbers (map (λ entry. entry.name.now) names.entries.items) };
}

impl<'a> Names<'a> {
    /// The names of divisions.
    pub(crate) fn of(alloc: Global, division: &'a DataDivision) -> Result<Names<'a>, AllocError>
        requires { HasOccurrences division.now }
        ensures { IfOk result (λ names. names ≡ layout_of division.now) }
    {
        let entries = entries_of(alloc, division)?;
        let numbers = numbers_of(alloc, &names_of(alloc, &entries)?)?;
        Ok(Names {
            division,
            entries,
            numbers,
        })
    }

    /// What a name stands for.
    pub(crate) fn referent(&self, name: &Name) -> Option<Referent>
        ensures { result ≡ option_map seen (referent self.now name.now) }
    {
        match number_in(name.text.as_bytes(), &self.numbers) {
            Some(number) => referent_at(&self.entries, number),
            None => None,
        }
    }
}

/// What the name at a place stands for.
fn referent_at(entries: &[Entry], number: usize) -> Option<Referent>
    ensures { result ≡ option_map (λ entry. entry.1) (slice_get (listed entries.now) number) }
{
    match entries.get(number) {
        Some(entry) => Some(entry.referent),
        None => None,
    }
}
