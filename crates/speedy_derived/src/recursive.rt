//! Types whose values hold values of their own type, each with a bound on its levels.
//!
//! Made from `recursive.rs` by `tools/derive`: change that, and make this again.
ghost use Rattle.std.specs.Prelude.{ℕ};
ghost use Rattle.speedy.specs.Layers.{at_level, layer_of, levels_above, own_layer};
ghost use Rattle.speedy.specs.TaggedLayers.{either_branch, one_branch, tagged_layer, unit_branch};
ghost use Rattle.std.proofs.Common.{inl, inr};

use speedy::levels::{
    Both, Boxed, Itself, Lent, Levels, Listed, Optional, Own, OwnParts, ReadBelow, ReadLevel,
    ReadOwn, Recursive, Shape, WriteBelow, WriteLevel, WriteOwn,
};
use speedy::prefixed::{Prefix, ReadPrefix, WritePrefix};
use speedy::private::{error_invalid_enum_variant, error_out_of_range_length};
use speedy::{
    Context, F64, ItemByItem, Layout, LendingReader, Part, ReadFrom, Writable, Writer, level_chain,
};
use std::convert::AsSlice;
use std::marker::PhantomData;

/// A value with a name, and the nodes below it.
#[derive(Debug, PartialEq, Drop)]
pub struct Node {
    pub value: u8,
    pub name: String,
    pub children: Vec<Node>,
}

/// How a [`Node`] holds others.
type NodeParts = Both<Own<NodeOwn>, Listed<Itself>>;

/// The same of what is lent.
type NodeLent<'t> = Both<Own<NodeOwnLent<'t>>, Lent<'t, Listed<Itself>>>;

/// Parts of a [`Node`] that hold no other.
struct NodeOwn {}

impl OwnParts for NodeOwn {
    type Parts = (u8, String);
}

impl ReadOwn for NodeOwn {
    fn read_own<L: AsSlice<u8> + Drop, C: Context, R: LendingReader<L, C>>(
        reader: &mut R,
    ) -> Result<(u8, String), C::Error> {
        reader.read_value()
    }
}

/// Parts of a [`Node`] that hold no other, lent.
struct NodeOwnLent<'t> {
    parts: PhantomData<&'t ()>,
}

impl<'t> OwnParts for NodeOwnLent<'t> {
    type Parts = (u8, Part<'t, String>);
}

impl<'t> WriteOwn for NodeOwnLent<'t> {
    fn write_own<C: Context, W: Writer<C>>(
        parts: &(u8, Part<'t, String>),
        writer: &mut W,
    ) -> Result<(), C::Error> {
        writer.write_value(parts)
    }
}

/// The levels that are left for a [`Node`].
#[derive(Drop)]
struct NodeLevel(Option<&'static NodeLevel>);

impl Levels for NodeLevel {
    ghost use Rattle.speedy_derived.specs.declared.recursive.NodeLevel.{fold-NodeLevel};

    ghost levels = { fold-NodeLevel ℕ (λ level. levels_above level.0) };
}

/// A [`Node`] has at most so many levels.
const NODE_LEVELS: &NodeLevel = level_chain!(16, NodeLevel);

impl Recursive for Node {
    ghost use Rattle.speedy_derived.specs.declared.recursive.Node.{out-Node};

    ghost layer = { layer_of ⟦<NodeParts as Shape<Node>>⟧.layer (λ value. let it = out-Node value in (
      (it.value, it.name),
      it.children,
    )) };
}

impl Layout for Node {
    ghost Seen = { (at_level ⟦<Node as Recursive>⟧.layer 16).Value };

    ghost seen = { (at_level ⟦<Node as Recursive>⟧.layer 16).view };

    ghost layout = { (at_level ⟦<Node as Recursive>⟧.layer 16).codec };
}

impl ReadLevel<Node> for NodeLevel {
    fn read_level<L: AsSlice<u8> + Drop, C: Context, R: LendingReader<L, C>>(
        &self,
        reader: &mut R,
    ) -> Result<Node, C::Error> {
        let Some(below) = &self.0 else {
            return Err(error_out_of_range_length());
        };
        match ReadBelow::<Node, NodeParts>::read_below::<L, C, R>(below, reader) {
            Ok(parts) => {
                let (own, children) = parts;
                let (value, name) = own;
                Ok(Node {
                    value,
                    name,
                    children,
                })
            }
            Err(error) => Err(error),
        }
    }
}

impl<L: AsSlice<u8> + Drop, C: Context> ReadFrom<L, C> for Node {
    type Strategy = ItemByItem<C>;

    fn read_from<R: LendingReader<L, C>>(reader: &mut R) -> Result<Node, C::Error> {
        ReadLevel::<Node>::read_level::<L, C, R>(NODE_LEVELS, reader)
    }

    fn minimum_bytes_needed() -> usize {
        9
    }
}

impl WriteLevel<Node> for NodeLevel {
    fn write_level<C: Context, W: Writer<C>>(
        &self,
        value: &Node,
        writer: &mut W,
    ) -> Result<(), C::Error> {
        let Some(below) = &self.0 else {
            return Err(error_out_of_range_length());
        };
        let parts = ((value.value, Part(&value.name)), &value.children);
        WriteBelow::<Node, NodeLent<'_>>::write_below::<C, W>(below, &parts, writer)
    }
}

impl<C: Context> Writable<C> for Node {
    fn write_to<W: Writer<C>>(&self, writer: &mut W) -> Result<(), C::Error> {
        WriteLevel::<Node>::write_level::<C, W>(NODE_LEVELS, self, writer)
    }
}

/// A step, what may follow it, a mark, and other steps by their names.
#[derive(Drop)]
pub struct Step(
    pub u16,
    pub Option<Box<Step>>,
    pub [u8; 3],
    pub Vec<(String, Step)>,
    pub u8,
);

/// How a [`Step`] holds others.
type StepParts = Both<
    Own<StepOwn2>,
    Both<Optional<Boxed<Itself>>, Both<Own<StepOwn3>, Listed<Both<Own<StepOwn>, Itself>>>>,
>;

/// The same of what is lent.
type StepLent<'t> = Both<
    Own<StepOwn2>,
    Both<
        Lent<'t, Optional<Boxed<Itself>>>,
        Both<Own<StepOwnLent<'t>>, Lent<'t, Listed<Both<Own<StepOwn>, Itself>>>>,
    >,
>;

/// Parts of a [`Step`] that hold no other.
struct StepOwn {}

impl OwnParts for StepOwn {
    type Parts = String;
}

impl ReadOwn for StepOwn {
    fn read_own<L: AsSlice<u8> + Drop, C: Context, R: LendingReader<L, C>>(
        reader: &mut R,
    ) -> Result<String, C::Error> {
        reader.read_value()
    }
}

impl WriteOwn for StepOwn {
    fn write_own<C: Context, W: Writer<C>>(parts: &String, writer: &mut W) -> Result<(), C::Error> {
        writer.write_value(parts)
    }
}

/// Parts of a [`Step`] that hold no other.
struct StepOwn2 {}

impl OwnParts for StepOwn2 {
    type Parts = u16;
}

impl ReadOwn for StepOwn2 {
    fn read_own<L: AsSlice<u8> + Drop, C: Context, R: LendingReader<L, C>>(
        reader: &mut R,
    ) -> Result<u16, C::Error> {
        reader.read_value()
    }
}

impl WriteOwn for StepOwn2 {
    fn write_own<C: Context, W: Writer<C>>(parts: &u16, writer: &mut W) -> Result<(), C::Error> {
        writer.write_value(parts)
    }
}

/// Parts of a [`Step`] that hold no other.
struct StepOwn3 {}

impl OwnParts for StepOwn3 {
    type Parts = [u8; 3];
}

impl ReadOwn for StepOwn3 {
    fn read_own<L: AsSlice<u8> + Drop, C: Context, R: LendingReader<L, C>>(
        reader: &mut R,
    ) -> Result<[u8; 3], C::Error> {
        reader.read_value()
    }
}

/// Parts of a [`Step`] that hold no other, lent.
struct StepOwnLent<'t> {
    parts: PhantomData<&'t ()>,
}

impl<'t> OwnParts for StepOwnLent<'t> {
    type Parts = Part<'t, [u8; 3]>;
}

impl<'t> WriteOwn for StepOwnLent<'t> {
    fn write_own<C: Context, W: Writer<C>>(
        parts: &Part<'t, [u8; 3]>,
        writer: &mut W,
    ) -> Result<(), C::Error> {
        writer.write_value(parts)
    }
}

/// The levels that are left for a [`Step`].
#[derive(Drop)]
struct StepLevel(Option<&'static StepLevel>);

impl Levels for StepLevel {
    ghost use Rattle.speedy_derived.specs.declared.recursive.StepLevel.{fold-StepLevel};

    ghost levels = { fold-StepLevel ℕ (λ level. levels_above level.0) };
}

/// A [`Step`] has at most so many levels.
const STEP_LEVELS: &StepLevel = level_chain!(8, StepLevel, level_chain!(2, StepLevel));

impl Recursive for Step {
    ghost use Rattle.speedy_derived.specs.declared.recursive.Step.{out-Step};

    ghost layer = { layer_of ⟦<StepParts as Shape<Step>>⟧.layer (λ value. let it = out-Step value in (
      it.0,
      (it.1, (it.2, it.3)),
    )) };
}

impl Layout for Step {
    ghost Seen = { (at_level ⟦<Step as Recursive>⟧.layer 10).Value };

    ghost seen = { (at_level ⟦<Step as Recursive>⟧.layer 10).view };

    ghost layout = { (at_level ⟦<Step as Recursive>⟧.layer 10).codec };
}

impl ReadLevel<Step> for StepLevel {
    fn read_level<L: AsSlice<u8> + Drop, C: Context, R: LendingReader<L, C>>(
        &self,
        reader: &mut R,
    ) -> Result<Step, C::Error> {
        let Some(below) = &self.0 else {
            return Err(error_out_of_range_length());
        };
        match ReadBelow::<Step, StepParts>::read_below::<L, C, R>(below, reader) {
            Ok(parts3) => {
                let (t0, parts2) = parts3;
                let (t1, parts) = parts2;
                let (t2, t3) = parts;
                Ok(Step(t0, t1, t2, t3, Default::default()))
            }
            Err(error) => Err(error),
        }
    }
}

impl<L: AsSlice<u8> + Drop, C: Context> ReadFrom<L, C> for Step {
    type Strategy = ItemByItem<C>;

    fn read_from<R: LendingReader<L, C>>(reader: &mut R) -> Result<Step, C::Error> {
        ReadLevel::<Step>::read_level::<L, C, R>(STEP_LEVELS, reader)
    }

    fn minimum_bytes_needed() -> usize {
        10
    }
}

impl WriteLevel<Step> for StepLevel {
    fn write_level<C: Context, W: Writer<C>>(
        &self,
        value: &Step,
        writer: &mut W,
    ) -> Result<(), C::Error> {
        let Some(below) = &self.0 else {
            return Err(error_out_of_range_length());
        };
        let parts = (value.0, (&value.1, (Part(&value.2), &value.3)));
        WriteBelow::<Step, StepLent<'_>>::write_below::<C, W>(below, &parts, writer)
    }
}

impl<C: Context> Writable<C> for Step {
    fn write_to<W: Writer<C>>(&self, writer: &mut W) -> Result<(), C::Error> {
        WriteLevel::<Step>::write_level::<C, W>(STEP_LEVELS, self, writer)
    }
}

/// A value of JSON.
#[derive(Debug, PartialEq, Drop)]
pub enum Json {
    Null,
    Bool(bool),
    Number(F64),
    Text(String),
    List(Vec<Json>),
    Object(Vec<(String, Json)>),
}

/// How [`Json::Object`] holds others.
type JsonObjectParts = Listed<Both<Own<JsonOwn>, Itself>>;

/// The same of what is lent.
type JsonObjectLent<'t> = Lent<'t, Listed<Both<Own<JsonOwn>, Itself>>>;

/// Parts of a [`Json`] that hold no other.
struct JsonOwn {}

impl OwnParts for JsonOwn {
    type Parts = String;
}

impl ReadOwn for JsonOwn {
    fn read_own<L: AsSlice<u8> + Drop, C: Context, R: LendingReader<L, C>>(
        reader: &mut R,
    ) -> Result<String, C::Error> {
        reader.read_value()
    }
}

impl WriteOwn for JsonOwn {
    fn write_own<C: Context, W: Writer<C>>(parts: &String, writer: &mut W) -> Result<(), C::Error> {
        writer.write_value(parts)
    }
}

/// The levels that are left for a [`Json`].
#[derive(Drop)]
struct JsonLevel(Option<&'static JsonLevel>);

impl Levels for JsonLevel {
    ghost use Rattle.speedy_derived.specs.declared.recursive.JsonLevel.{fold-JsonLevel};

    ghost levels = { fold-JsonLevel ℕ (λ level. levels_above level.0) };
}

/// A [`Json`] has at most so many levels.
const JSON_LEVELS: &JsonLevel = level_chain!(16, JsonLevel);

impl Recursive for Json {
    ghost use Rattle.speedy_derived.specs.declared.recursive.Json.{out-Json};
    ghost use Rattle.speedy_derived.specs.declared.recursive.Json.TheOpen.{Json-F};

    ghost layer = { tagged_layer ⟦<u8 as Prefix>⟧.numbers
        (either_branch
        (either_branch
        (unit_branch 0)
        (either_branch
        (one_branch 1 (own_layer ⟦<bool as Layout>⟧.seen ⟦<bool as Layout>⟧.layout))
        (one_branch 2 (own_layer ⟦<F64 as Layout>⟧.seen ⟦<F64 as Layout>⟧.layout))))
        (either_branch
        (one_branch 3 (own_layer ⟦<String as Layout>⟧.seen ⟦<String as Layout>⟧.layout))
        (either_branch
        (one_branch 4 ⟦<Listed<Itself> as Shape<Json>>⟧.layer)
        (one_branch 5 ⟦<JsonObjectParts as Shape<Json>>⟧.layer))))
        (λ it. elim (out-Json it) [
          | Json-F.Null ↦ inl (inl tt)
          | Json-F.Bool t0 ↦ inl (inr (inl t0))
          | Json-F.Number t0 ↦ inl (inr (inr t0))
          | Json-F.Text t0 ↦ inr (inl t0)
          | Json-F.List t0 ↦ inr (inr (inl t0))
          | Json-F.Object t0 ↦ inr (inr (inr t0))
        ]) };
}

impl Layout for Json {
    ghost Seen = { (at_level ⟦<Json as Recursive>⟧.layer 16).Value };

    ghost seen = { (at_level ⟦<Json as Recursive>⟧.layer 16).view };

    ghost layout = { (at_level ⟦<Json as Recursive>⟧.layer 16).codec };
}

impl ReadLevel<Json> for JsonLevel {
    fn read_level<L: AsSlice<u8> + Drop, C: Context, R: LendingReader<L, C>>(
        &self,
        reader: &mut R,
    ) -> Result<Json, C::Error> {
        let Some(below) = &self.0 else {
            return Err(error_out_of_range_length());
        };
        let tag = match u8::read_number(reader) {
            Ok(tag) => tag,
            Err(error) => return Err(error),
        };
        match tag {
            0 => Ok(Json::Null),
            1 => match reader.read_value() {
                Ok(t0) => Ok(Json::Bool(t0)),
                Err(error) => Err(error),
            },
            2 => match reader.read_value() {
                Ok(t0) => Ok(Json::Number(t0)),
                Err(error) => Err(error),
            },
            3 => match reader.read_value() {
                Ok(t0) => Ok(Json::Text(t0)),
                Err(error) => Err(error),
            },
            4 => match ReadBelow::<Json, Listed<Itself>>::read_below::<L, C, R>(below, reader) {
                Ok(t0) => Ok(Json::List(t0)),
                Err(error) => Err(error),
            },
            5 => match ReadBelow::<Json, JsonObjectParts>::read_below::<L, C, R>(below, reader) {
                Ok(t0) => Ok(Json::Object(t0)),
                Err(error) => Err(error),
            },
            _ => Err(error_invalid_enum_variant()),
        }
    }
}

impl<L: AsSlice<u8> + Drop, C: Context> ReadFrom<L, C> for Json {
    type Strategy = ItemByItem<C>;

    fn read_from<R: LendingReader<L, C>>(reader: &mut R) -> Result<Json, C::Error> {
        ReadLevel::<Json>::read_level::<L, C, R>(JSON_LEVELS, reader)
    }

    fn minimum_bytes_needed() -> usize {
        1
    }
}

impl WriteLevel<Json> for JsonLevel {
    fn write_level<C: Context, W: Writer<C>>(
        &self,
        value: &Json,
        writer: &mut W,
    ) -> Result<(), C::Error> {
        let Some(below) = &self.0 else {
            return Err(error_out_of_range_length());
        };
        match value {
            Json::Null => u8::write_number(0, writer),
            Json::Bool(t0) => {
                u8::write_number(1, writer)?;
                writer.write_value(t0)
            }
            Json::Number(t0) => {
                u8::write_number(2, writer)?;
                writer.write_value(t0)
            }
            Json::Text(t0) => {
                u8::write_number(3, writer)?;
                writer.write_value(t0)
            }
            Json::List(t0) => {
                u8::write_number(4, writer)?;
                WriteBelow::<Json, Lent<'_, Listed<Itself>>>::write_below::<C, W>(
                    below, &t0, writer,
                )
            }
            Json::Object(t0) => {
                u8::write_number(5, writer)?;
                WriteBelow::<Json, JsonObjectLent<'_>>::write_below::<C, W>(below, &t0, writer)
            }
        }
    }
}

impl<C: Context> Writable<C> for Json {
    fn write_to<W: Writer<C>>(&self, writer: &mut W) -> Result<(), C::Error> {
        WriteLevel::<Json>::write_level::<C, W>(JSON_LEVELS, self, writer)
    }
}

/// A document, whose parts hold values of their own types.
#[derive(Debug, PartialEq, Drop)]
pub struct Document {
    pub version: u16,
    pub root: Json,
    pub outline: Node,
}

/// What [`Document`] is read and written as.
type DocumentParts = (u16, Json, Node);

impl Layout for Document {
    ghost Seen = { ⟦<DocumentParts as Layout>⟧.Seen };

    ghost seen = { λ it. ⟦<DocumentParts as Layout>⟧.seen (it.version, it.root, it.outline) };

    ghost layout = { ⟦<DocumentParts as Layout>⟧.layout };
}

impl<L: AsSlice<u8> + Drop, C: Context> ReadFrom<L, C> for Document {
    type Strategy = ItemByItem<C>;

    fn read_from<R: LendingReader<L, C>>(reader: &mut R) -> Result<Document, C::Error> {
        match reader.read_value() {
            Ok((version, root, outline)) => Ok(Document {
                version,
                root,
                outline,
            }),
            Err(error) => Err(error),
        }
    }

    fn minimum_bytes_needed() -> usize {
        <DocumentParts as ReadFrom<L, C>>::minimum_bytes_needed()
    }
}

impl<C: Context> Writable<C> for Document {
    fn write_to<W: Writer<C>>(&self, writer: &mut W) -> Result<(), C::Error> {
        writer.write_value(&(self.version, Part(&self.root), Part(&self.outline)))
    }
}
