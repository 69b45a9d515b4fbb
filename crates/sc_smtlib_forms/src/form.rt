//! The forms of which a script is made. Each is a text in which `W`, `X` and `Y` stand for what is put
//! there (`template`).

/// A form of SMT-LIB 2.6, with the theories of sets, texts and datatypes as cvc5 writes them.
#[derive(Clone, Copy, Debug)]
pub enum Form {
    /// The logic: all theories.
    Logic,
    /// The sort of whole numbers.
    LongSort,
    /// The sort of decimal numbers.
    DecimalSort,
    /// The datatype W of the entities of type X; Y tells whether its ids are listed.
    EntityData,
    /// The datatype W of records with the fields X, a space before each.
    RecordData,
    /// In the datatype W, the field X of sort Y.
    FieldData,
    /// The datatype W of options of sort X.
    OptionData,
    /// The datatype of addresses.
    AddressData,
    /// The ids X that the entities of sort W have.
    Choices,
    /// The constant W of sort X.
    Constant,
    /// The function W from sort X to sort Y.
    Function,
    /// The function W from sort X and texts to sort Y.
    TagFunction,
    /// The term W of sort X with the body Y.
    Definition,
    /// That W is true.
    Assertion,
    /// That W implies X.
    Implication,
    /// The question whether all that is asserted can be true.
    Check,
    /// The word of types whose ids aren't listed.
    Open,
    /// The word of types whose ids are listed.
    Listed,
    /// The sort of truth values.
    Bool,
    /// The sort of whole numbers.
    Long,
    /// The sort of texts.
    String,
    /// The sort of decimal numbers.
    Decimal,
    /// The sort of addresses.
    Ip,
    /// The sort of sets of sort W.
    SetSort,
    /// The entity sort of number W.
    EntityName,
    /// The record sort of number W.
    RecordName,
    /// The option sort of number W.
    OptionName,
    /// The attributes of the entity sort of number W.
    AttributesName,
    /// The ancestors of the entity sort of number W in that of number X.
    AncestorsName,
    /// The keys of the tags of the entity sort of number W.
    KeysName,
    /// The tags of the entity sort of number W.
    TagName,
    /// The term of number W.
    TermName,
    /// True.
    True,
    /// False.
    False,
    /// The number W in 64 bits.
    Number64,
    /// The number W in 128 bits.
    Number128,
    /// The address: whether it is one of version 6, its prefix as a mask, its bits.
    Address,
    /// The text W, as it is written.
    Text,
    /// The entity of type X with the id Y, as it is written; W tells whether its type's ids are listed.
    Uid,
    /// The absent option of sort W.
    None,
    /// Who asks.
    Principal,
    /// With what.
    Resource,
    /// What else is told of the request.
    Context,
    /// Not W.
    Not,
    /// Both.
    And,
    /// One or both.
    Or,
    /// X where W is true, else Y.
    Choice,
    /// Whether both are one.
    Equal,
    /// The sum in 64 bits.
    Add,
    /// The difference in 64 bits.
    Subtract,
    /// The product in 64 bits.
    Multiply,
    /// Whether the exact sum leaves 64 bits.
    AddOverflows,
    /// Whether the exact difference leaves 64 bits.
    SubtractOverflows,
    /// Whether the exact product leaves 64 bits.
    MultiplyOverflows,
    /// Whether W is less than X.
    Less,
    /// Whether an address is one of version 6.
    IsVersion6,
    /// Whether the range W lies in the range X.
    InRange,
    /// The function W of X.
    Call,
    /// The function W of X and Y.
    TagCall,
    /// The field X, as it is written, of the record Y of sort W.
    Field,
    /// The record of sort W that has no fields.
    EmptyRecord,
    /// The record of sort W with the parts X, a space before each.
    Record,
    /// The empty set of sort W.
    EmptySet,
    /// The set of W alone.
    Singleton,
    /// The set of W and of the members of X.
    Union,
    /// The same up to X.
    UnionWith,
    /// The same behind X.
    UnionEnd,
    /// Whether the option X of sort W holds a value.
    IsPresent,
    /// What the option X of sort W holds, else Y.
    Held,
    /// Whether W is a member of X.
    Member,
    /// Whether each member of W is one of X.
    Subset,
    /// Whether W and X, of sort Y, have a member in common.
    Common,
    /// Whether the text W is one of the language X.
    Like,
    /// The text W alone, as it is written.
    Characters,
    /// All texts.
    AnyText,
    /// Texts of the languages W one after the other, a space before each.
    Sequence,
}
