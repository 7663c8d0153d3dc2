//! The names of data and CDs with what they stand for.
ghost use Rattle.std.specs.Prelude.{
  ◌≡◌,
  ◌≤◌,
  ◌∷◌,
  ◌++◌,
  [],
  IfOk,
  OnOk,
  bytes_eq,
  flat_map,
  option_map,
  true,
};
ghost use Rattle.std.specs.List.{AllByRecursion, list_all};
ghost use Rattle.com_cd.specs.InputArea.{start_of};
ghost use Rattle.com_cd.specs.OutputArea.{out_start};
ghost use Rattle.cob_data.specs.Clauses.{or_one};
ghost use Rattle.cob_data.specs.Layout.{
  body_names,
  cd_names,
  cd_referent,
  declared,
  field_occurs,
  for_data,
  input_fields,
  input_place,
  input_sort,
  item_names,
  output_name,
  output_place,
  output_sort,
  table_number,
  table_of,
};
ghost use Rattle.cob_data.specs.Numerals.{numeral};
ghost use Rattle.cob_data.specs.Occurrences.{HasOccurrences, is_body_right, is_table_right};
ghost use Rattle.cob_meaning.specs.Layouts.{cd_of, item_of, referent};
ghost use Rattle.cob_meaning.specs.Sources.{layout_of};
ghost use Rattle.cob_flat.specs.inner.Referents.{
  AreFieldsIn,
  IsFieldIn,
  clause_names,
  listed,
  meant,
  named_in,
  names_in_order,
};

use crate::referent::Referent;
use cob_data::{
    CdBody, CdEntry, DataDivision, InputClause, Item, ItemPlace, ItemSort, OutputClause,
};
use cob_forms::Name;
use com_cd::{InField, OutField};
use com_text::number_of;
use std::alloc::{AllocError, Global};
use std::marker::Model;

/// A name with what it stands for.
#[derive(Drop)]
pub(crate) struct Entry<'a> {
    name: &'a [u8],
    referent: Referent,
}

impl Entry<'_> {
    /// Whether the entry is that of a name.
    fn has_name(&self, name: &[u8]) -> bool
        ensures { result ≡ bytes_eq self.now.name.now name.now }
    {
        self.name == name
    }
}

/// Adds a name.
fn push<'a>(
    name: &'a Name,
    referent: Referent,
    entries: &mut Vec<Entry<'a>>,
) -> Result<(), AllocError>
    ensures { OnOk result (listed entries.new.items
        ≡ listed entries.old.items ++ (name.now.text, meant referent) ∷ []) }
{
    entries.push(Entry {
        name: name.text.as_bytes(),
        referent,
    })?;
    Ok(())
}

/// Adds a name of data, if there is one.
fn push_data<'a>(
    name: &'a Option<Name>,
    place: ItemPlace,
    entries: &mut Vec<Entry<'a>>,
) -> Result<(), AllocError>
    ensures { OnOk result (listed entries.new.items
        ≡ listed entries.old.items ++ for_data name.now place None) }
{
    match name {
        Some(name) => push(
            name,
            Referent::Data {
                place,
                occurs: None,
            },
            entries,
        ),
        None => Ok(()),
    }
}

/// Adds the names of items.
fn push_items<'a>(items: &'a [Item], entries: &mut Vec<Entry<'a>>) -> Result<(), AllocError>
    ensures { OnOk result (listed entries.new.items
        ≡ listed entries.old.items ++ item_names items.now) }
{
    'items: for item in items {
        push_data(&item.name, item.place, entries)?;
    }
    Ok(())
}

/// The sort of a field of an input CD.
fn input_sort(field: InField) -> ItemSort
    ensures { result ≡ input_sort field }
{
    match field {
        InField::Date | InField::Time | InField::Length | InField::Count => ItemSort::Numeric,
        InField::Queue
        | InField::Sub1
        | InField::Sub2
        | InField::Sub3
        | InField::Source
        | InField::EndKey
        | InField::Status => ItemSort::Alphanumeric,
    }
}

/// Where a field of an input CD begins.
fn input_start(field: InField) -> u32
    ensures { result ≡ start_of field }
{
    match field {
        InField::Queue => 0,
        InField::Sub1 => 12,
        InField::Sub2 => 24,
        InField::Sub3 => 36,
        InField::Date => 48,
        InField::Time => 54,
        InField::Source => 62,
        InField::Length => 74,
        InField::EndKey => 78,
        InField::Status => 79,
        InField::Count => 81,
    }
}

/// Where a field of an input CD is.
fn input_place(area: u32, field: InField) -> ItemPlace
    ensures { result ≡ input_place area field }
{
    ItemPlace {
        area,
        start: input_start(field),
        length: field.width() as u32,
        sort: input_sort(field),
    }
}

/// Adds the names of the clauses of an input CD.
fn push_clauses<'a>(
    area: u32,
    clauses: &'a [InputClause],
    entries: &mut Vec<Entry<'a>>,
) -> Result<(), AllocError>
    ensures { OnOk result (listed entries.new.items
        ≡ listed entries.old.items ++ clause_names area clauses.now) }
{
    'clauses: for clause in clauses {
        let place = input_place(area, clause.field);
        push(
            &clause.name,
            Referent::Data {
                place,
                occurs: None,
            },
            entries,
        )?;
    }
    Ok(())
}

/// The fields of an input CD, in the order of its area.
const FIELDS: &[InField] = &[
    InField::Queue,
    InField::Sub1,
    InField::Sub2,
    InField::Sub3,
    InField::Date,
    InField::Time,
    InField::Source,
    InField::Length,
    InField::EndKey,
    InField::Status,
    InField::Count,
];

/// Adds the names of fields of an input CD in order.
fn push_in_order<'a>(
    area: u32,
    names: &'a [Option<Name>],
    fields: &[InField],
    entries: &mut Vec<Entry<'a>>,
) -> Result<(), AllocError>
    ensures { OnOk result (listed entries.new.items
        ≡ listed entries.old.items ++ names_in_order area names.now fields.now) }
{
    let mut names = names;
    let mut fields = fields;
    'names: while let (Some((name, names_behind)), Some((field, fields_behind))) = (
        names.split_first(),
        fields.split_first(),
    ) {
        push_data(name, input_place(area, *field), entries)?;
        names = names_behind;
        fields = fields_behind;
    }
    Ok(())
}

/// The number that digits write, and 0 if a text is no number.
fn numeral(digits: &[u8]) -> u64
    ensures { result ≡ numeral digits.now }
{
    number_of(digits).unwrap_or(0)
}

/// How often destinations occur, if a clause says it.
fn table_number(clause: &OutputClause) -> Option<u32>
    requires { is_table_right clause.now ≡ true }
    ensures { result ≡ table_number clause.now }
{
    match clause {
        OutputClause::Table { occurs, .. } => Some(numeral(occurs.digits.as_bytes()) as u32),
        _ => None,
    }
}

/// How often the destinations of an output CD occur, if it has a table.
fn table_of(clauses: &[OutputClause]) -> Option<u32>
    requires { list_all is_table_right clauses.now ≡ true }
    ensures { result ≡ table_of clauses.now }
{
    'clauses: for clause in clauses {
        if let Some(number) = table_number(clause) {
            return Some(number);
        }
    }
    None
}

/// The sort of a field of an output CD.
fn output_sort(field: OutField) -> ItemSort
    ensures { result ≡ output_sort field }
{
    match field {
        OutField::Count | OutField::Length => ItemSort::Numeric,
        OutField::Status | OutField::Error(_) | OutField::Destination(_) => ItemSort::Alphanumeric,
    }
}

/// How often a field of an output CD occurs, by how often its table does.
fn field_occurs(occurs: Option<u32>, field: OutField) -> Option<u32>
    ensures { result ≡ field_occurs occurs field }
{
    match field {
        OutField::Error(_) | OutField::Destination(_) => occurs,
        OutField::Count | OutField::Length | OutField::Status => None,
    }
}

/// Where a field of an output CD begins.
fn output_start(field: OutField) -> u32
    requires { out_start field ≤ 114 }
    ensures { result ≡ out_start field }
{
    match field {
        OutField::Count => 0,
        OutField::Length => 4,
        OutField::Status => 8,
        OutField::Error(at) => 10 + 13 * at,
        OutField::Destination(at) => 11 + 13 * at,
    }
}

/// Where a field of an output CD is.
fn output_place(area: u32, field: OutField) -> ItemPlace
    requires { out_start field ≤ 114 }
    ensures { result ≡ output_place area field }
{
    ItemPlace {
        area,
        start: output_start(field),
        length: field.width() as u32,
        sort: output_sort(field),
    }
}

/// Adds the name of a clause of an output CD.
fn push_output<'a>(
    area: u32,
    occurs: Option<u32>,
    clause: &'a OutputClause,
    entries: &mut Vec<Entry<'a>>,
) -> Result<(), AllocError>
    requires { IsFieldIn clause.now }
    ensures { OnOk result (listed entries.new.items
        ≡ listed entries.old.items ++ output_name area occurs clause.now) }
{
    match clause {
        OutputClause::Field { field, name, .. } => push(
            name,
            Referent::Data {
                place: output_place(area, *field),
                occurs: field_occurs(occurs, *field),
            },
            entries,
        ),
        OutputClause::Table { .. } => Ok(()),
    }
}

/// Adds the names of the clauses of an output CD.
fn push_outputs<'a>(
    area: u32,
    occurs: Option<u32>,
    clauses: &'a [OutputClause],
    entries: &mut Vec<Entry<'a>>,
) -> Result<(), AllocError>
    requires { AllByRecursion IsFieldIn clauses.now }
    ensures { OnOk result (listed entries.new.items
        ≡ listed entries.old.items ++ flat_map (output_name area occurs) clauses.now) }
{
    'clauses: for clause in clauses {
        push_output(area, occurs, clause, entries)?;
    }
    Ok(())
}

/// What the name of a CD stands for.
fn cd_referent(area: u32, body: &CdBody) -> Referent
    requires { is_body_right body.now ≡ true }
    ensures { meant result ≡ cd_referent area body.now }
{
    match body {
        CdBody::Input { .. } | CdBody::InputNames { .. } => Referent::InputCd { area },
        CdBody::Output { clauses } => Referent::OutputCd {
            area,
            occurrences: table_of(clauses.as_slice()).unwrap_or(1),
        },
    }
}

/// Adds the names of the fields of a CD.
fn push_body<'a>(
    area: u32,
    body: &'a CdBody,
    entries: &mut Vec<Entry<'a>>,
) -> Result<(), AllocError>
    requires tables { is_body_right body.now ≡ true }
    requires fields { AreFieldsIn body.now }
    ensures { OnOk result (listed entries.new.items
        ≡ listed entries.old.items ++ body_names area body.now) }
{
    match body {
        CdBody::Input { clauses, .. } => push_clauses(area, clauses.as_slice(), entries),
        CdBody::InputNames { names, .. } => push_in_order(area, names.as_slice(), FIELDS, entries),
        CdBody::Output { clauses } => {
            let occurs = table_of(clauses.as_slice());
            push_outputs(area, occurs, clauses.as_slice(), entries)
        }
    }
}

/// Adds the names of a CD: its own, those of its fields and those of its records.
fn push_cd<'a>(cd: &'a CdEntry, entries: &mut Vec<Entry<'a>>) -> Result<(), AllocError>
    requires tables { is_body_right cd.now.body ≡ true }
    requires fields { AreFieldsIn cd.now.body }
    ensures { OnOk result (listed entries.new.items
        ≡ listed entries.old.items ++ cd_names cd.now) }
{
    push(&cd.name, cd_referent(cd.area, &cd.body), entries)?;
    push_body(cd.area, &cd.body, entries)?;
    push_items(cd.records.as_slice(), entries)
}

/// Adds the names of CDs.
fn push_cds<'a>(cds: &'a [CdEntry], entries: &mut Vec<Entry<'a>>) -> Result<(), AllocError>
    requires tables { list_all (λ cd. is_body_right cd.body) cds.now ≡ true }
    requires fields { AllByRecursion (λ cd. AreFieldsIn cd.body) cds.now }
    ensures { OnOk result (listed entries.new.items
        ≡ listed entries.old.items ++ flat_map cd_names cds.now) }
{
    'cds: for cd in cds {
        push_cd(cd, entries)?;
    }
    Ok(())
}

/// The names of a program's data and CDs.
fn entries_of(alloc: Global, division: &DataDivision) -> Result<Vec<Entry<'_>>, AllocError>
    requires tables { HasOccurrences division.now }
    requires fields { AllByRecursion (λ cd. AreFieldsIn cd.body) division.now.communication }
    ensures { IfOk result (λ entries. listed entries.items ≡ declared division.now) }
{
    let mut entries = Vec::new(alloc);
    push_items(division.working_storage.as_slice(), &mut entries)?;
    push_cds(division.communication.as_slice(), &mut entries)?;
    Ok(entries)
}

/// The names of a program's divisions. Contracts see the layout that the divisions say.
#[derive(Drop)]
pub(crate) struct Names<'a> {
    division: &'a DataDivision,
    entries: Vec<Entry<'a>>,
}

impl<'a> Model for Names<'a> {
    ghost use Rattle.std.specs.Prelude.{◌≡◌};
    ghost use Rattle.cob_data.specs.Layout.{declared};
    ghost use Rattle.cob_meaning.specs.Layouts.{Layout};
    ghost use Rattle.cob_meaning.specs.Sources.{layout_of};
    ghost use Rattle.cob_flat.specs.inner.Referents.{listed};

    ghost Value = { Layout };

    ghost view = { λ names. layout_of names.division.now };

    ghost invariant = { λ names. listed names.entries.items ≡ declared names.division.now };
}

impl<'a> Names<'a> {
    /// The names of divisions.
    pub(crate) fn of(alloc: Global, division: &'a DataDivision) -> Result<Names<'a>, AllocError>
        requires tables { HasOccurrences division.now }
        requires fields { AllByRecursion (λ cd. AreFieldsIn cd.body) division.now.communication }
        ensures { IfOk result (λ names. names ≡ layout_of division.now) }
    {
        let entries = entries_of(alloc, division)?;
        Ok(Names { division, entries })
    }

    /// What a name stands for.
    pub(crate) fn referent(&self, name: &Name) -> Option<Referent>
        ensures { option_map meant result ≡ referent self.now name.now }
    {
        find_name(&self.entries, name.text.as_bytes())
    }

    /// The item that a name stands for, without a subscript.
    pub(crate) fn item(&self, name: &Name) -> Option<ItemPlace>
        ensures { result ≡ item_of self.now name.now }
    {
        match self.referent(name) {
            Some(Referent::Data { place, .. }) => Some(place),
            Some(Referent::InputCd { .. }) | Some(Referent::OutputCd { .. }) | None => None,
        }
    }

    /// The area of the CD that a name stands for.
    pub(crate) fn cd(&self, name: &Name) -> Option<u32>
        ensures { result ≡ cd_of self.now name.now }
    {
        match self.referent(name) {
            Some(Referent::InputCd { area }) | Some(Referent::OutputCd { area, .. }) => Some(area),
            Some(Referent::Data { .. }) | None => None,
        }
    }
}

/// What the first entry with a name stands for.
fn find_name(entries: &[Entry], name: &[u8]) -> Option<Referent>
    ensures { option_map meant result ≡ named_in (listed entries.now) name.now }
{
    'entries: for entry in entries {
        if entry.has_name(name) {
            return Some(entry.referent);
        }
    }
    None
}
