//! The tables of a batch: ids and groups by name, and the units of requests.

ghost use Rattle.std.specs.Prelude.{◌≡◌, ◌≤◌, ◌<◌, ◌==◌, ◌+◌, ◌∷◌, ◌++◌, [], ℕ, List, length, cond, Some, None, option_copied, option_map, OnOk, IfOk, slice_get, false};
ghost use Rattle.std.proofs.Props.{props};
ghost use Rattle.odb_doc.specs.batch.Records.{IsWellFormedRecord, record_of};
ghost use Rattle.odb_doc.specs.batch.Batches.{records};
ghost use Rattle.odb_doc.specs.Names.{texts_in};
ghost use Rattle.odb_check.specs.Firsts.{or_else, is_text};
ghost use Rattle.odb_check.specs.Starts.{start_of, table_start};
ghost use Rattle.odb_check.specs.Tables.{AreIdsDistinct, AreTablesOf, IsStartOf, at_text, more_with, table_len, unit_among};

use crate::need::Need;
use crate::seed::Seed;
use crate::table::Table;
use odb_doc::{Batch, Request};
use std::alloc::{AllocError, Global};

/// The unit of a request with this group, where `next` is the number of the next unit.
fn unit_in(groups: &Table<'_>, group: Option<&str>, next: u32) -> u32
    ensures { result ≡ unit_among groups.now (option_copied group.entry) next }
{
    match group {
        Some(name) => groups.get(name).unwrap_or(next),
        None => next,
    }
}

/// Records the unit of a group, if there is one. A group that was recorded before has a unit other than `next`, and
/// nothing is done.
fn note_group<'b>(
    alloc: Global,
    groups: &mut Table<'b>,
    group: Option<&'b str>,
    unit: u32,
    next: u32,
) -> Result<(), AllocError>
    requires { unit ≡ unit_among groups.old (option_copied group) next }
    ensures len { OnOk result (table_len groups.new
        ≡ table_len groups.old + more_with groups.old (option_copied group.entry)) }
    ensures texts { OnOk result ((q : List ℕ) → at_text groups.new q
        ≡ or_else (at_text groups.old q)
        (cond (is_text q (option_copied group.entry)) (Some unit) None)) }
    ensures start { table_start groups.new ≡ table_start groups.old }
{
    let Some(name) = group else {
        return Ok(());
    };
    if unit == next {
        let _is_new = groups.note(alloc, name, unit)?;
    }
    Ok(())
}

/// Records `i` as the first position of `unit` if the unit is new.
fn note_start(starts: &mut Vec<u32>, unit: u32, i: u32) -> Result<(), AllocError>
    ensures { OnOk result (starts.new.items ≡ cond (unit == length starts.old.items)
        (starts.old.items ++ i ∷ []) starts.old.items) }
{
    if unit as usize == starts.len() {
        starts.push(i)?;
    }
    Ok(())
}

/// The tables of the first requests of a batch.
#[derive(Drop)]
pub(crate) struct FirstTables<'b> {
    batch: &'b Batch<'b>,
    /// The first position of each identifier.
    ids: Table<'b>,
    /// The unit of each group.
    groups: Table<'b>,
    /// The unit of each position.
    units: Vec<u32>,
    /// The position at which each unit begins.
    starts: Vec<u32>,
    /// Whether two requests have one identifier.
    has_repeated_id: bool,
}

/// The requests of a batch by their identifiers, groups and units.
#[derive(Drop)]
pub(crate) struct Tables<'b> {
    all: FirstTables<'b>,
    ghost exact: { AreTablesOf (records all.batch.now) (length (records all.batch.now)) all.ids
        all.groups all.units.items all.starts.items } by { Prim.hlevel props },
    ghost apart: { all.has_repeated_id ≡ false → AreIdsDistinct (records all.batch.now)
        (length (records all.batch.now)) } by { Prim.hlevel props },
}

impl<'b> FirstTables<'b> {
    /// Adds the request at the position `i` to those before it.
    #[inline(always)]
    fn add(&mut self, alloc: Global, i: u32) -> Result<(), AllocError>
        requires within { i < length (records self.old.batch.now) }
        requires before { AreTablesOf (records self.old.batch.now) i self.old.ids self.old.groups
            self.old.units.items self.old.starts.items }
        requires apart { self.old.has_repeated_id ≡ false → AreIdsDistinct (records self.old.batch.now) i }
        ensures batch { self.new.batch ≡ self.old.batch }
        ensures tables { OnOk result (AreTablesOf (records self.old.batch.now) (i + 1) self.new.ids
            self.new.groups self.new.units.items self.new.starts.items) }
        ensures apart { OnOk result (self.new.has_repeated_id ≡ false
            → AreIdsDistinct (records self.old.batch.now) (i + 1)) }
        ensures ids { table_start self.new.ids ≡ table_start self.old.ids }
        ensures groups { table_start self.new.groups ≡ table_start self.old.groups }
    {
        let request = self.batch.request(i);
        let next = self.starts.len() as u32;
        let unit = unit_in(&self.groups, request.group, next);
        let is_new = self.ids.note(alloc, request.id, i)?;
        note_group(alloc, &mut self.groups, request.group, unit, next)?;
        note_start(&mut self.starts, unit, i)?;
        self.units.push(unit)?;
        self.has_repeated_id |= !is_new;
        Ok(())
    }

    /// Adds all requests to empty tables.
    #[inline(always)]
    fn fill(&mut self, alloc: Global) -> Result<(), AllocError>
        requires tables { AreTablesOf (records self.old.batch.now) 0 self.old.ids self.old.groups
            self.old.units.items self.old.starts.items }
        ensures batch { self.new.batch ≡ self.old.batch }
        ensures tables { OnOk result (AreTablesOf (records self.old.batch.now)
            (length (records self.old.batch.now)) self.new.ids self.new.groups self.new.units.items
            self.new.starts.items) }
        ensures apart { OnOk result (self.new.has_repeated_id ≡ false
            → AreIdsDistinct (records self.old.batch.now) (length (records self.old.batch.now))) }
        ensures ids { table_start self.new.ids ≡ table_start self.old.ids }
        ensures groups { table_start self.new.groups ≡ table_start self.old.groups }
    {
        let batch = self.batch;
        let count = batch.len();
        self.ids.reserve(count as usize)?;
        self.units.reserve(count as usize)?;
        for i in 0..count {
            self.add(alloc, i)?;
        }
        Ok(())
    }
}

/// The tables of a batch.
#[inline(always)]
pub(crate) fn tables_of<'b>(
    alloc: Global,
    seed: Seed,
    batch: &'b Batch<'b>,
) -> Result<Tables<'b>, AllocError>
    ensures batch { IfOk result (λ tables. tables.all.batch.now ≡ batch.now) }
    ensures ids { IfOk result (λ tables. table_start tables.all.ids
        ≡ option_map start_of seed.number) }
    ensures groups { IfOk result (λ tables. table_start tables.all.groups
        ≡ option_map start_of seed.number) }
{
    let start = seed.start();
    let mut all = FirstTables {
        batch,
        ids: Table::new(alloc, start),
        groups: Table::new(alloc, start),
        units: Vec::new(alloc),
        starts: Vec::new(alloc),
        has_repeated_id: false,
    };
    all.fill(alloc)?;
    Ok(Tables { all })
}

impl<'b> Tables<'b> {
    ghost use Rattle.odb_check.specs.Units.{groups_of};
    ghost use Rattle.odb_check.specs.Needs.{need_of};
    ghost use Rattle.odb_check.specs.Positions.{id_at, group_at, names_at, reference_at};
    ghost use Rattle.odb_check.specs.Requests.{requests};
    ghost use Rattle.odb_check.specs.Units as spec;
    ghost use Rattle.odb_check.specs.Walks.{HasValidIds};

    pub(crate) fn len(&self) -> u32
        ensures count { result ≡ length (requests self.now) }
        ensures small { result ≤ 10000 }
    {
        self.all.batch.len()
    }

    pub(crate) fn request(&self, i: u32) -> &'b Request<'b>
        requires { i < length (requests self.now) }
        ensures value { slice_get (requests self.now) i ≡ Some (record_of result.now) }
        ensures well_formed { IsWellFormedRecord (record_of result.now) }
    {
        self.all.batch.request(i)
    }

    pub(crate) fn id(&self, i: u32) -> &'b str
        requires { i < length (requests self.now) }
        ensures { id_at (requests self.now) i ≡ Some result.now }
    {
        self.request(i).id
    }

    pub(crate) fn group(&self, i: u32) -> Option<&'b str>
        requires { i < length (requests self.now) }
        ensures { group_at (requests self.now) i ≡ option_copied result }
    {
        self.request(i).group
    }

    pub(crate) fn names(&self, i: u32) -> &[&'b str]
        requires { i < length (requests self.now) }
        ensures { texts_in result.now ≡ names_at (requests self.now) i }
    {
        &self.request(i).names
    }

    pub(crate) fn reference(&self, i: u32) -> Option<&str>
        requires { i < length (requests self.now) }
        ensures { reference_at (requests self.now) i ≡ option_copied result }
    {
        match &self.request(i).reference {
            Some(id) => Some(id.as_str()),
            None => None,
        }
    }

    pub(crate) fn unit_count(&self) -> u32
        ensures count { result ≡ spec.unit_count (requests self.now) }
        ensures few { result ≤ length (requests self.now) }
    {
        self.all.starts.len() as u32
    }

    /// How many different groups there are.
    pub(crate) fn group_count(&self) -> u32
        ensures { result ≡ length (groups_of (requests self.now)) }
    {
        odb_doc::laws::distinct_names();
        self.all.groups.len() as u32
    }

    pub(crate) fn unit_of(&self, i: u32) -> u32
        requires { i < length (requests self.now) }
        ensures value { result ≡ spec.unit_at (requests self.now) i }
        ensures within { result < spec.unit_count (requests self.now) }
    {
        self.all.units[i as usize]
    }

    /// Where the unit begins.
    pub(crate) fn start_of(&self, u: u32) -> u32
        requires { u < spec.unit_count (requests self.now) }
        ensures { IsStartOf (requests self.now) u result }
    {
        self.all.starts[u as usize]
    }

    /// Where the unit of the request begins.
    #[tactic(auto, using(crate::proofs::UnitLemmas::where_units_begin))]
    pub(crate) fn begin_of(&self, i: u32) -> u32
        requires { i < length (requests self.now) }
        ensures { result ≡ spec.unit_begin (requests self.now) i }
    {
        self.start_of(self.unit_of(i))
    }

    /// The first position with the identifier.
    pub(crate) fn position_of(&self, id: &str) -> Option<u32>
        ensures { result ≡ spec.position_of (requests self.now) id.now }
    {
        self.all.ids.get(id)
    }

    /// The request that the URL of the request refers to, if the batch has it.
    pub(crate) fn referred(&self, i: u32) -> Option<u32>
        requires { i < length (requests self.now) }
        ensures { result ≡ spec.referred_at (requests self.now) i }
    {
        self.position_of(self.reference(i)?)
    }

    /// Whether two requests have one identifier.
    pub(crate) fn has_repeated_id(&self) -> bool
        ensures { result ≡ false → AreIdsDistinct (requests self.now) (length (requests self.now)) }
    {
        self.all.has_repeated_id
    }

    pub(crate) fn unit_of_group(&self, group: &str) -> Option<u32>
        ensures { result ≡ spec.unit_of_group (requests self.now) group.now }
    {
        self.all.groups.get(group)
    }

    /// The position with the identifier, if no two requests have one. The request at `guess` is looked at before the
    /// table is, which takes a quarter of the time where the identifier is its own.
    pub(crate) fn position_near(&self, guess: usize, id: &str) -> Option<u32>
        requires { HasValidIds (requests self.now) }
        ensures { result ≡ spec.position_of (requests self.now) id.now }
    {
        if guess < self.len() as usize && self.id(guess as u32) == id {
            return Some(guess as u32);
        }
        self.position_of(id)
    }

    /// What a name resolves to, if no two requests have one id. The request at `guess` is looked at first.
    pub(crate) fn need_near(&self, guess: u32, name: &str) -> Option<Need>
        requires { HasValidIds (requests self.now) }
        ensures { result ≡ need_of (requests self.now) name.now }
    {
        match self.position_near(guess as usize, name) {
            Some(position) => Some(Need::One(position)),
            None => self.unit_of_group(name).map(Need::Group),
        }
    }
}
