//! Trees of structs in the Thrift compact protocol. Bytes of the type binary are lent, not copied.

/// A struct: its fields, in order.
#[cycle(tree)]
#[derive(Drop)]
pub struct Tree<'a> {
    pub fields: Vec<Field<'a>>,
}

/// A field of a struct: its id and its value.
#[cycle(tree)]
#[derive(Drop)]
pub struct Field<'a> {
    pub id: i16,
    pub item: Item<'a>,
}

/// A value. The numbers of the types i16, i32 and i64 are kept as they are spelled, in 64 bits; of a double the eight
/// bytes are kept.
#[cycle(tree)]
#[derive(Drop)]
pub enum Item<'a> {
    Truth(bool),
    Byte(u8),
    I16(i64),
    I32(i64),
    I64(i64),
    Double([u8; 8]),
    Binary(&'a [u8]),
    List(Values<'a>),
    Set(Values<'a>),
    Map(Box<Map<'a>>),
    Struct(Tree<'a>),
}

/// Values of one type, in order: those of a list or a set, or the keys or the values of a map.
#[cycle(tree)]
#[derive(Drop)]
pub enum Values<'a> {
    Truths(TruthType, Vec<bool>),
    Bytes(Vec<u8>),
    I16s(Vec<i64>),
    I32s(Vec<i64>),
    I64s(Vec<i64>),
    Doubles(Vec<[u8; 8]>),
    Binaries(Vec<&'a [u8]>),
    Lists(Vec<Values<'a>>),
    Sets(Vec<Values<'a>>),
    Maps(Vec<Map<'a>>),
    Structs(Vec<Tree<'a>>),
}

/// A map: each key has the value at its place, and what stands in the longer of the two alone belongs to no pair. Of a
/// map without pairs the types count for nothing.
#[cycle(tree)]
#[derive(Drop)]
pub struct Map<'a> {
    pub keys: Values<'a>,
    pub values: Values<'a>,
}

/// Which of the two types that mean a truth value a list, a set or a map names.
#[derive(Clone, Copy, PartialEq, Eq)]
pub enum TruthType {
    /// Type 1.
    True,
    /// Type 2.
    False,
}
