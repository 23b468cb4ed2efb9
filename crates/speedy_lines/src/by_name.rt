//! What bytes are answered by the name of a type: one function for each family of names.
ghost use Rattle.std.specs.Prelude.{IfOk};
ghost use Rattle.speedy_lines.specs.Answer.{AnswersAs};
ghost use Rattle.speedy_lines.specs.Names.{named, named_number, named_leaf, named_composed, named_list};
ghost use Rattle.speedy_lines.specs.Names.{named_gathered, named_lent, named_own};

use crate::answer::answer_as;
use crate::enums::{DerivedEnum, Enum};
use crate::frame::Frame;
use crate::names::{
    ComposedName, GatheredName, LeafName, LentName, ListName, NumberName, OwnName, TypeName,
    for_each_composed, for_each_gathered, for_each_leaf, for_each_lent, for_each_list,
    for_each_number, for_each_own,
};
use crate::record::Record;
use crate::tree::Tree;
use speedy::ext::{IndexMap, IndexSet, SmallVec, Uuid};
use speedy::varint::VarInt64;
use speedy::views::{ArrayView, SliceView};
use speedy::{Context, Endianness, Error};
use std::alloc::{AllocError, Global};
use std::borrow::{CowSlice, CowStr};
use std::boxed::{BoxedSlice, BoxedStr};
use std::collections::{BTreeMap, BTreeSet};
use std::net::{IpAddr, Ipv4Addr, Ipv6Addr};
use std::num::{NonZeroI32, NonZeroU8, NonZeroU16};
use std::ops::{Range, RangeInclusive};
use std::time::Duration;

// The answer as the type for which a name of the family stands.
macro_rules! answer_each {
    (($name:ident, $alloc:ident, $context:ident, $bytes:ident)
        $family:ident: $($text:literal $variant:ident $type:ty;)*) => {
        match $name {
            $($family::$variant => answer_as::<$type, C>($alloc, $context, $bytes),)*
        }
    };
}

// What bytes are answered as a number.
fn answer_number<C: Context<Error = Error> + Copy>(
    alloc: Global,
    context: C,
    name: NumberName,
    bytes: &[u8],
) -> Result<Vec<u8>, AllocError>
    ensures { let asked = C.mode context in
        IfOk result (λ answer. AnswersAs (named_number name) asked bytes.now answer.items) }
{
    for_each_number!(answer_each(name, alloc, context, bytes))
}

// What bytes are answered as a leaf.
fn answer_leaf<C: Context<Error = Error> + Copy>(
    alloc: Global,
    context: C,
    name: LeafName,
    bytes: &[u8],
) -> Result<Vec<u8>, AllocError>
    ensures { let asked = C.mode context in
        IfOk result (λ answer. AnswersAs (named_leaf name) asked bytes.now answer.items) }
{
    for_each_leaf!(answer_each(name, alloc, context, bytes))
}

// What bytes are answered as parts.
fn answer_composed<C: Context<Error = Error> + Copy>(
    alloc: Global,
    context: C,
    name: ComposedName,
    bytes: &[u8],
) -> Result<Vec<u8>, AllocError>
    ensures { let asked = C.mode context in
        IfOk result (λ answer. AnswersAs (named_composed name) asked bytes.now answer.items) }
{
    for_each_composed!(answer_each(name, alloc, context, bytes))
}

// What bytes are answered as a text or a list.
fn answer_list<C: Context<Error = Error> + Copy>(
    alloc: Global,
    context: C,
    name: ListName,
    bytes: &[u8],
) -> Result<Vec<u8>, AllocError>
    ensures { let asked = C.mode context in
        IfOk result (λ answer. AnswersAs (named_list name) asked bytes.now answer.items) }
{
    for_each_list!(answer_each(name, alloc, context, bytes))
}

// What bytes are answered as a map or a set.
fn answer_gathered<C: Context<Error = Error> + Copy>(
    alloc: Global,
    context: C,
    name: GatheredName,
    bytes: &[u8],
) -> Result<Vec<u8>, AllocError>
    ensures { let asked = C.mode context in
        IfOk result (λ answer. AnswersAs (named_gathered name) asked bytes.now answer.items) }
{
    for_each_gathered!(answer_each(name, alloc, context, bytes))
}

// What bytes are answered as what borrows.
fn answer_lent<C: Context<Error = Error> + Copy>(
    alloc: Global,
    context: C,
    name: LentName,
    bytes: &[u8],
) -> Result<Vec<u8>, AllocError>
    ensures { let asked = C.mode context in
        IfOk result (λ answer. AnswersAs (named_lent name) asked bytes.now answer.items) }
{
    for_each_lent!(answer_each(name, alloc, context, bytes))
}

// What bytes are answered as a type of this crate.
fn answer_own<C: Context<Error = Error> + Copy>(
    alloc: Global,
    context: C,
    name: OwnName,
    bytes: &[u8],
) -> Result<Vec<u8>, AllocError>
    ensures { let asked = C.mode context in
        IfOk result (λ answer. AnswersAs (named_own name) asked bytes.now answer.items) }
{
    for_each_own!(answer_each(name, alloc, context, bytes))
}

/// What bytes are answered under a context, by the type's name.
pub fn answer_by_name<C: Context<Error = Error> + Copy>(
    alloc: Global,
    context: C,
    name: TypeName,
    bytes: &[u8],
) -> Result<Vec<u8>, AllocError>
    ensures { let asked = C.mode context in
        IfOk result (λ answer. AnswersAs (named name) asked bytes.now answer.items) }
{
    match name {
        TypeName::Number(name) => answer_number(alloc, context, name, bytes),
        TypeName::Leaf(name) => answer_leaf(alloc, context, name, bytes),
        TypeName::Composed(name) => answer_composed(alloc, context, name, bytes),
        TypeName::List(name) => answer_list(alloc, context, name, bytes),
        TypeName::Gathered(name) => answer_gathered(alloc, context, name, bytes),
        TypeName::Lent(name) => answer_lent(alloc, context, name, bytes),
        TypeName::Own(name) => answer_own(alloc, context, name, bytes),
    }
}
