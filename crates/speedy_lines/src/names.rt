//! The types that the program knows, by family, and their names on a line.
ghost use Rattle.std.specs.Prelude.{◌≡◌, ◌≢◌, ◌↔◌, IsTrue, MatchOption};
ghost use Rattle.speedy_lines.specs.declared.names.NumberName.{NumberName};
ghost use Rattle.speedy_lines.specs.declared.names.LeafName.{LeafName};
ghost use Rattle.speedy_lines.specs.declared.names.ComposedName.{ComposedName};
ghost use Rattle.speedy_lines.specs.declared.names.ListName.{ListName};
ghost use Rattle.speedy_lines.specs.declared.names.GatheredName.{GatheredName};
ghost use Rattle.speedy_lines.specs.declared.names.LentName.{LentName};
ghost use Rattle.speedy_lines.specs.declared.names.OwnName.{OwnName};
ghost use Rattle.speedy_lines.specs.declared.names.TypeName.{TypeName};
ghost use Rattle.speedy_lines.specs.Line.{name_text};
ghost use Rattle.speedy_lines.specs.Names.{named_number, named_leaf, named_composed, named_list, named_gathered};
ghost use Rattle.speedy_lines.specs.Names.{named_lent, named_own};

/// The types that the program knows.
#[derive(Clone, Copy)]
pub enum TypeName {
    /// Numbers.
    Number(NumberName),
    /// Flags, characters and other values that are no numbers and have no parts.
    Leaf(LeafName),
    /// So many parts, one after another.
    Composed(ComposedName),
    /// Texts and lists, which have a count and own memory.
    List(ListName),
    /// Maps and sets.
    Gathered(GatheredName),
    /// What borrows the bytes, and cows.
    Lent(LentName),
    /// Types that this crate writes by hand.
    Own(OwnName),
}

/// Numbers.
#[derive(Clone, Copy)]
pub enum NumberName {
    /// `u8`.
    U8,
    /// `u16`.
    U16,
    /// `u32`.
    U32,
    /// `u64`.
    U64,
    /// `u128`.
    U128,
    /// `i8`.
    I8,
    /// `i16`.
    I16,
    /// `i32`.
    I32,
    /// `i64`.
    I64,
    /// `i128`.
    I128,
    /// `usize`.
    Usize,
    /// `VarInt64`.
    Varint,
    /// `NonZeroU8`.
    NonZeroU8,
    /// `NonZeroU16`.
    NonZeroU16,
    /// `NonZeroI32`.
    NonZeroI32,
}

/// Flags, characters and other values that are no numbers and have no parts.
#[derive(Clone, Copy)]
pub enum LeafName {
    /// `bool`.
    Bool,
    /// `char`.
    Char,
    /// `()`.
    Unit,
    /// `Endianness`.
    Endianness,
    /// `Uuid`.
    Uuid,
    /// `Ipv4Addr`.
    Ipv4,
    /// `Ipv6Addr`.
    Ipv6,
    /// `IpAddr`.
    Ip,
    /// `Duration`.
    Duration,
}

/// So many parts, one after another.
#[derive(Clone, Copy)]
pub enum ComposedName {
    /// `Option<u16>`.
    OptU16,
    /// `Result<u16, u8>`.
    ResU16U8,
    /// `Range<u16>`.
    RangeU16,
    /// `RangeInclusive<u16>`.
    RangeInclU16,
    /// `(u8, u16, u32)`.
    TupleU8U16U32,
    /// `[u16; 4]`.
    ArrayU16x4,
    /// `Box<u16>`.
    BoxU16,
}

/// Texts and lists, which have a count and own memory.
#[derive(Clone, Copy)]
pub enum ListName {
    /// `String`.
    String,
    /// `BoxedStr`.
    BoxedStr,
    /// `Vec<u8>`.
    VecU8,
    /// `Vec<u16>`.
    VecU16,
    /// `BoxedSlice<u16>`.
    BoxedSliceU16,
    /// `SmallVec<u16, 4>`.
    SmallVecU16x4,
    /// `Vec<char>`.
    VecChar,
    /// `Vec<()>`.
    VecUnit,
    /// `Vec<Option<String>>`.
    VecOptString,
}

/// Maps and sets.
#[derive(Clone, Copy)]
pub enum GatheredName {
    /// `BTreeSet<u16>`.
    SetU16,
    /// `BTreeMap<u8, u8>`.
    MapU8U8,
    /// `BTreeMap<String, Vec<u16>>`.
    MapStringVecU16,
    /// `IndexSet<u16>`.
    IndexSetU16,
    /// `IndexMap<u8, u8>`.
    IndexMapU8U8,
}

/// What borrows the bytes, and cows.
#[derive(Clone, Copy)]
pub enum LentName {
    /// `CowStr`.
    CowStr,
    /// `CowSlice<u8>`.
    CowU8,
    /// `CowSlice<u16>`.
    CowU16,
    /// `&str`.
    StrRef,
    /// `&[u8]`.
    BytesRef,
    /// `&[u8; 4]`.
    BytesRef4,
    /// `SliceView<i8>`.
    ViewI8,
    /// `ArrayView<i8, 4>`.
    ArrayViewI8x4,
}

/// Types that this crate writes by hand.
#[derive(Clone, Copy)]
pub enum OwnName {
    /// [`Frame`](crate::frame::Frame).
    Frame,
    /// [`Enum`](crate::enums::Enum).
    Enum,
    /// [`DerivedEnum`](crate::enums::DerivedEnum).
    DerivedEnum,
    /// [`Record`](crate::record::Record).
    Record,
    /// [`Tree`](crate::tree::Tree).
    Tree,
}

// A table of each family: the name on a line, the variant, and the type. The row of its bytes is in `specs/Names.antt`.
// It is handed to a macro, behind what that macro is given.
macro_rules! for_each_number {
    ($do:ident $($given:tt)*) => {
        $do! {
            $($given)* NumberName:
            b"u8" U8 u8;
            b"u16" U16 u16;
            b"u32" U32 u32;
            b"u64" U64 u64;
            b"u128" U128 u128;
            b"i8" I8 i8;
            b"i16" I16 i16;
            b"i32" I32 i32;
            b"i64" I64 i64;
            b"i128" I128 i128;
            b"usize" Usize usize;
            b"varint" Varint VarInt64;
            b"nonzero_u8" NonZeroU8 NonZeroU8;
            b"nonzero_u16" NonZeroU16 NonZeroU16;
            b"nonzero_i32" NonZeroI32 NonZeroI32;
        }
    };
}

macro_rules! for_each_leaf {
    ($do:ident $($given:tt)*) => {
        $do! {
            $($given)* LeafName:
            b"bool" Bool bool;
            b"char" Char char;
            b"unit" Unit ();
            b"endianness" Endianness Endianness;
            b"uuid" Uuid Uuid;
            b"ipv4" Ipv4 Ipv4Addr;
            b"ipv6" Ipv6 Ipv6Addr;
            b"ip" Ip IpAddr;
            b"duration" Duration Duration;
        }
    };
}

macro_rules! for_each_composed {
    ($do:ident $($given:tt)*) => {
        $do! {
            $($given)* ComposedName:
            b"opt_u16" OptU16 Option<u16>;
            b"res_u16_u8" ResU16U8 Result<u16, u8>;
            b"range_u16" RangeU16 Range<u16>;
            b"range_incl_u16" RangeInclU16 RangeInclusive<u16>;
            b"tuple_u8_u16_u32" TupleU8U16U32 (u8, u16, u32);
            b"array_u16_4" ArrayU16x4 [u16; 4];
            b"box_u16" BoxU16 Box<u16>;
        }
    };
}

macro_rules! for_each_list {
    ($do:ident $($given:tt)*) => {
        $do! {
            $($given)* ListName:
            b"string" String String;
            b"boxed_str" BoxedStr BoxedStr;
            b"vec_u8" VecU8 Vec<u8>;
            b"vec_u16" VecU16 Vec<u16>;
            b"boxed_u16" BoxedSliceU16 BoxedSlice<u16>;
            b"small_vec_u16_4" SmallVecU16x4 SmallVec<u16, 4>;
            b"vec_char" VecChar Vec<char>;
            b"vec_unit" VecUnit Vec<()>;
            b"vec_opt_string" VecOptString Vec<Option<String>>;
        }
    };
}

macro_rules! for_each_gathered {
    ($do:ident $($given:tt)*) => {
        $do! {
            $($given)* GatheredName:
            b"set_u16" SetU16 BTreeSet<u16>;
            b"map_u8_u8" MapU8U8 BTreeMap<u8, u8>;
            b"map_string_vec_u16" MapStringVecU16 BTreeMap<String, Vec<u16>>;
            b"index_set_u16" IndexSetU16 IndexSet<u16>;
            b"index_map_u8_u8" IndexMapU8U8 IndexMap<u8, u8>;
        }
    };
}

macro_rules! for_each_lent {
    ($do:ident $($given:tt)*) => {
        $do! {
            $($given)* LentName:
            b"cow_str" CowStr CowStr;
            b"cow_u8" CowU8 CowSlice<u8>;
            b"cow_u16" CowU16 CowSlice<u16>;
            b"str_ref" StrRef &str;
            b"bytes_ref" BytesRef &[u8];
            b"bytes_ref_4" BytesRef4 &[u8; 4];
            b"view_i8" ViewI8 SliceView<i8>;
            b"array_view_i8_4" ArrayViewI8x4 ArrayView<i8, 4>;
        }
    };
}

macro_rules! for_each_own {
    ($do:ident $($given:tt)*) => {
        $do! {
            $($given)* OwnName:
            b"frame" Frame Frame;
            b"enum" Enum Enum;
            b"derived_enum" DerivedEnum DerivedEnum;
            b"record" Record Record;
            b"tree" Tree Tree;
        }
    };
}

pub(crate) use for_each_composed;
pub(crate) use for_each_gathered;
pub(crate) use for_each_leaf;
pub(crate) use for_each_lent;
pub(crate) use for_each_list;
pub(crate) use for_each_number;
pub(crate) use for_each_own;

// The first name of a family's table that is the field.
macro_rules! find {
    (($field:ident) $family:ident: $($text:literal $name:ident $type:ty;)*) => {
        $(if is_text($field, $text) {
            return Some($family::$name);
        })*
    };
}

// Whether a field is this text.
fn is_text(field: &[u8], text: &[u8]) -> bool
    ensures { IsTrue result ↔ (field.now ≡ text.now) }
{
    field == text
}

// The number that a field names.
fn number_of(field: &[u8]) -> Option<NumberName>
    ensures { MatchOption result ((name : NumberName) → field.now ≢ (named_number name).text)
        (λ name. field.now ≡ (named_number name).text) }
{
    for_each_number!(find(field));
    None
}

// The leaf that a field names.
fn leaf_of(field: &[u8]) -> Option<LeafName>
    ensures { MatchOption result ((name : LeafName) → field.now ≢ (named_leaf name).text)
        (λ name. field.now ≡ (named_leaf name).text) }
{
    for_each_leaf!(find(field));
    None
}

// The composed type that a field names.
fn composed_of(field: &[u8]) -> Option<ComposedName>
    ensures { MatchOption result ((name : ComposedName) → field.now ≢ (named_composed name).text)
        (λ name. field.now ≡ (named_composed name).text) }
{
    for_each_composed!(find(field));
    None
}

// The list that a field names.
fn list_of(field: &[u8]) -> Option<ListName>
    ensures { MatchOption result ((name : ListName) → field.now ≢ (named_list name).text)
        (λ name. field.now ≡ (named_list name).text) }
{
    for_each_list!(find(field));
    None
}

// The map or the set that a field names.
fn gathered_of(field: &[u8]) -> Option<GatheredName>
    ensures { MatchOption result ((name : GatheredName) → field.now ≢ (named_gathered name).text)
        (λ name. field.now ≡ (named_gathered name).text) }
{
    for_each_gathered!(find(field));
    None
}

// The type that borrows that a field names.
fn lent_of(field: &[u8]) -> Option<LentName>
    ensures { MatchOption result ((name : LentName) → field.now ≢ (named_lent name).text)
        (λ name. field.now ≡ (named_lent name).text) }
{
    for_each_lent!(find(field));
    None
}

// The type of this crate that a field names.
fn own_of(field: &[u8]) -> Option<OwnName>
    ensures { MatchOption result ((name : OwnName) → field.now ≢ (named_own name).text)
        (λ name. field.now ≡ (named_own name).text) }
{
    for_each_own!(find(field));
    None
}

/// The type that a field names.
pub fn name_of(field: &[u8]) -> Option<TypeName>
    ensures { MatchOption result ((name : TypeName) → field.now ≢ name_text name)
        (λ name. field.now ≡ name_text name) }
{
    if let Some(name) = number_of(field) {
        return Some(TypeName::Number(name));
    }
    if let Some(name) = leaf_of(field) {
        return Some(TypeName::Leaf(name));
    }
    if let Some(name) = composed_of(field) {
        return Some(TypeName::Composed(name));
    }
    if let Some(name) = list_of(field) {
        return Some(TypeName::List(name));
    }
    if let Some(name) = gathered_of(field) {
        return Some(TypeName::Gathered(name));
    }
    if let Some(name) = lent_of(field) {
        return Some(TypeName::Lent(name));
    }
    if let Some(name) = own_of(field) {
        return Some(TypeName::Own(name));
    }
    None
}
