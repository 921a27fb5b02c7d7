ghost use Rattle.std.specs.Prelude.{◌≡◌};

use std::fmt;

/// Why a trait, a script or one of its commands is refused.
#[derive(Clone, Copy, Debug, PartialEq, Eq)]
pub enum Code {
    /// A byte begins no token.
    Lex,
    /// No text of the grammar goes on so.
    Syntax,
    /// Different symbols of one chain without parentheses.
    Mixed,
    /// Too many constructs are open.
    Deep,
    /// Something has passed its limit.
    Size,
    /// The trait isn't named after its file.
    TraitName,
    /// There is no file of the trait.
    UnknownTrait,
    /// The trait refers to itself.
    Cycle,
    /// The trait that is referred to is refused.
    BadReference,
    /// A replacement doesn't fit.
    Rename,
    /// A shorthand has one name twice.
    FieldTwice,
    /// The markers don't fit the domain.
    Arity,
    /// A built-in operator can't be declared.
    BuiltIn,
    /// No operator has the sort.
    UnknownSort,
    /// A variable is declared twice.
    VariableTwice,
    /// A generator isn't one operator of the sort.
    Generator,
    /// An observer isn't one operator of the sort.
    Partition,
    /// A term has no reading.
    NoReading,
    /// A term has several readings.
    Ambiguous,
    /// An implied trait has an operator more.
    ImpliedOperator,
    /// A converted name isn't one operator.
    Converted,
    /// An exempted term has no converted operator.
    Exempt,
    /// The line is no command.
    Command,
    /// A mark is missing or out of place.
    Mark,
    /// The duty is proved already.
    Done,
    /// A variable doesn't fit.
    Variable,
    /// A reference isn't one operator.
    Operator,
    /// The goal hasn't the shape that the method wants.
    Shape,
    /// No clause generates the sort.
    Generated,
    /// No clause partitions the sort.
    Partitioned,
    /// No fact has the name.
    Fact,
    /// The duty isn't proved.
    Open,
    /// The rewriting limit is reached.
    Limit,
    /// The trait has no such duty.
    UnknownDuty,
    /// The duty has a block already.
    DutyTwice,
}

impl Code {
    ghost use Rattle.larch_base.specs.CodeText.{code_text};

    /// The code as reports write it.
    pub fn text(&self) -> &'static str
        ensures { result.now ≡ code_text self.now }
    {
        match self {
            Code::Lex => "LEX",
            Code::Syntax => "SYNTAX",
            Code::Mixed => "MIXED",
            Code::Deep => "DEEP",
            Code::Size => "SIZE",
            Code::TraitName => "TRAIT-NAME",
            Code::UnknownTrait => "UNKNOWN-TRAIT",
            Code::Cycle => "CYCLE",
            Code::BadReference => "BAD-REFERENCE",
            Code::Rename => "RENAME",
            Code::FieldTwice => "FIELD-TWICE",
            Code::Arity => "ARITY",
            Code::BuiltIn => "BUILT-IN",
            Code::UnknownSort => "UNKNOWN-SORT",
            Code::VariableTwice => "VARIABLE-TWICE",
            Code::Generator => "GENERATOR",
            Code::Partition => "PARTITION",
            Code::NoReading => "NO-READING",
            Code::Ambiguous => "AMBIGUOUS",
            Code::ImpliedOperator => "IMPLIED-OPERATOR",
            Code::Converted => "CONVERTED",
            Code::Exempt => "EXEMPT",
            Code::Command => "COMMAND",
            Code::Mark => "MARK",
            Code::Done => "DONE",
            Code::Variable => "VARIABLE",
            Code::Operator => "OPERATOR",
            Code::Shape => "SHAPE",
            Code::Generated => "GENERATED",
            Code::Partitioned => "PARTITIONED",
            Code::Fact => "FACT",
            Code::Open => "OPEN",
            Code::Limit => "LIMIT",
            Code::UnknownDuty => "UNKNOWN-DUTY",
            Code::DutyTwice => "DUTY-TWICE",
        }
    }
}

impl fmt::Display for Code {
    ghost use Rattle.std.specs.Prelude.{Some};
    ghost use Rattle.larch_base.specs.CodeText.{code_text};

    ghost output = { λ code. Some (code_text code) };

    fn fmt<W: fmt::Write>(&self, f: &mut fmt::Formatter<W>) -> fmt::Result {
        f.write_str(self.text())
    }
}
