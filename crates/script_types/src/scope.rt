ghost use Rattle.std.specs.Prelude.{◌≡◌};
ghost use Rattle.std.specs.Option.{option_copied};
ghost use Rattle.script_types.specs.Names.{binding_at, file_by, is_bad_prefix, is_stack};
ghost use Rattle.script_types.specs.inside.Look.{look};
ghost use Rattle.script_types.specs.Typing.{assigned_read, constant_read, input_as, input_read, is_its_role, name_read, number_as};
ghost use Rattle.script_types.specs.inside.Scopes.{GivesKind, scope_of, binding_in};

use crate::end::KindEnd;
use crate::fault::MeaningKind;
use crate::names::Names;
use crate::same::{is_kind, is_same_use};
use crate::typed::{Section, Typed, UsedAs, Value};
use cell_values::{Kind, Word, read_cell};
use map_meaning::Tree;
use script_syntax::{Binding, Target};
use sqlite_items::Items;
use std::alloc::Global;

/// What names are where a statement stands.
#[derive(Drop)]
pub struct Scope<'a> {
    pub section: Section,
    /// The last step.
    pub steps: u32,
    /// Whether time series are sampled by the mean.
    pub mean: bool,
    pub bindings: &'a Items<Binding>,
    /// The place of each binding.
    pub places: Names<u32>,
    /// The names that statements assign.
    pub targets: Names<bool>,
    /// The names that are targets of time series.
    pub samples: Names<bool>,
    /// The role of each name that is used.
    pub roles: Names<UsedAs>,
    /// The number of each input.
    pub inputs: Names<u32>,
    /// The kind that the last statement above gave each name.
    pub above: Names<Kind>,
    /// How many stacks the statements above write.
    pub stacks_written: u32,
    /// The names that are used down to this statement.
    pub seen: Names<UsedAs>,
    /// How many stacks are read down to this statement, and 65 where they are more.
    pub stacks_read: u32,
}

/// Whether the prefix gives no names for a stack.
pub fn is_bad_prefix(prefix: &[u8], steps: u32) -> bool
    ensures { result ≡ is_bad_prefix prefix.now steps }
{
    if prefix.contains(&b'.') || prefix.len() > 8 {
        return true;
    }
    match 10u64.checked_pow(11 - prefix.len() as u32) {
        Some(names) => names <= steps as u64,
        None => false,
    }
}

// The value of an assigned name.
fn assigned(
    alloc: Global,
    is_sampled: bool,
    name: &[u8],
    above: Option<Kind>,
) -> Result<Typed, KindEnd>
    ensures { GivesKind result (assigned_read is_sampled name.now above) }
{
    let Some(kind) = above else {
        return Err(KindEnd::Meaning(MeaningKind::NotAssigned));
    };
    if is_sampled {
        return Err(KindEnd::Meaning(MeaningKind::KindMismatch));
    }
    let name = Word::new(alloc, name)?;
    Ok(Typed::Map(Value {
        kind,
        tree: Tree::Name { kind, name },
    }))
}

// Whether a name is used as it is at its first use.
fn is_its_role(first: Option<UsedAs>, role: UsedAs) -> bool
    ensures { result ≡ is_its_role first role }
{
    match first {
        Some(first) => is_same_use(first, role),
        None => false,
    }
}

/// Whether a name stands for a stack.
pub fn is_stack(role: UsedAs) -> bool
    ensures { result ≡ is_stack role }
{
    matches!(role, UsedAs::Stack)
}

// An input as what it is used as.
fn input_as(role: UsedAs, kind: Kind, number: u32) -> Typed
    ensures { result ≡ input_as role kind number }
{
    match role {
        UsedAs::Grid => Typed::Map(Value {
            kind,
            tree: Tree::Input {
                kind,
                input: number,
            },
        }),
        UsedAs::Stack => Typed::Stack {
            kind,
            input: number,
        },
        UsedAs::Table { kind: of, .. } => Typed::Table {
            kind: of,
            input: number,
        },
        UsedAs::Series { kind: of } => Typed::Series {
            kind: of,
            input: number,
        },
    }
}

/// A number as one of the kind.
pub fn number_as(kind: Kind, text: &[u8]) -> Result<Value, KindEnd>
    ensures { GivesKind result (number_as kind text.now) }
{
    match read_cell(kind, text) {
        Ok(cell) => Ok(Value {
            kind,
            tree: Tree::Number { kind, cell },
        }),
        Err(_) => Err(KindEnd::Meaning(MeaningKind::KindMismatch)),
    }
}

// The number that a name stands for.
fn constant(alloc: Global, kind: Option<Kind>, text: &Word) -> Result<Typed, KindEnd>
    ensures { GivesKind result (constant_read kind text.now) }
{
    match kind {
        None => Ok(Typed::Constant(text.twin(alloc)?)),
        Some(kind) => Ok(Typed::Map(number_as(kind, text.bytes())?)),
    }
}

/// The binding of a name, by the places of the bindings.
pub fn bound_in<'a>(
    bindings: &'a Items<Binding>,
    places: &Names<u32>,
    name: &[u8],
) -> Option<&'a Binding>
    ensures { option_copied result ≡ binding_at bindings.now (look places.now.values name.now) }
{
    let Some(place) = places.get(name) else {
        return None;
    };
    bindings.get(place as usize)
}

/// The file that a target is written to: the bound one, or the one that has its own name.
pub fn file_by<'a>(bound: Option<&'a Binding>, name: &'a [u8]) -> &'a [u8]
    ensures { result.now ≡ file_by (option_copied bound.entry) name.now }
{
    let Some(binding) = bound else {
        return name;
    };
    match &binding.target {
        Target::File(file) => file.bytes(),
        Target::Number(_) => name,
    }
}

impl<'a> Scope<'a> {
    /// The binding of a name.
    pub fn binding(&self, name: &[u8]) -> Option<&'a Binding>
        ensures { option_copied result ≡ binding_in self.now name.now }
    {
        bound_in(self.bindings, &self.places, name)
    }

    // An input in its one role.
    fn input(&self, name: &[u8], role: UsedAs, file: &[u8], kind: Kind) -> Result<Typed, KindEnd>
        ensures { GivesKind result (input_read (scope_of self.now) role name.now file.now kind) }
    {
        if !is_its_role(self.roles.get(name), role) {
            return Err(KindEnd::Meaning(MeaningKind::NameClash));
        }
        if is_stack(role) && is_kind(Kind::Ldd, kind) {
            return Err(KindEnd::Meaning(MeaningKind::DrainPlace));
        }
        if is_stack(role) && is_bad_prefix(file, self.steps) {
            return Err(KindEnd::Meaning(MeaningKind::BadStackName));
        }
        Ok(input_as(role, kind, self.inputs.get(name).unwrap_or(0)))
    }

    /// What a name stands for in this role.
    #[tactic(auto, unfolding(crate::specs::Typing::name_read))]
    pub fn name(&self, alloc: Global, name: &[u8], role: UsedAs) -> Result<Typed, KindEnd>
        ensures { GivesKind result (name_read (scope_of self.now) role name.now) }
    {
        if self.targets.get(name).is_some() {
            let is_sampled = self.samples.get(name).is_some();
            return assigned(alloc, is_sampled, name, self.above.get(name));
        }
        let Some(binding) = self.binding(name) else {
            return Err(KindEnd::Meaning(MeaningKind::UnknownName));
        };
        match &binding.target {
            Target::File(file) => self.input(
                name,
                role,
                file.bytes(),
                binding.kind.unwrap_or(Kind::Scalar),
            ),
            Target::Number(text) => constant(alloc, binding.kind, text),
        }
    }
}
