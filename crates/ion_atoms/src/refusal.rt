//! Why octets are refused, and where.
ghost use Rattle.std.specs.Prelude.{◌≡◌};
ghost use Rattle.ion_atoms.specs.Reasons.{reason_number, reason_name, is_of_profile};

use std::alloc::{AllocError, AllocFailed};
use std::fmt::{self, Display, Formatter};

/// Why octets are refused. Where two reasons fall on one octet, the one of the smaller number
/// answers. The derived order is that of the numbers.
#[derive(Clone, Copy, Debug, PartialEq, Eq, PartialOrd, Ord, Hash)]
pub enum Reason {
    /// A growth was refused: there is too little memory.
    Memory = 1,
    /// The input ended inside something.
    Incomplete = 2,
    /// A number beyond the bounds that numbers are kept in.
    TooLarge = 3,
    /// Octets or a token of no legal form or value.
    Malformed = 4,
    /// A float that isn't null; no floating-point numbers are kept.
    Float = 5,
    /// A shared table of a name and version that the catalog has already.
    DuplicateTable = 6,
    /// A value that describes no usable shared table.
    BadTable = 7,
    /// A symbol id above the greatest.
    SymbolRange = 8,
    /// The id of a gap, or of an import's slot without a text.
    ImportGap = 9,
    /// The catalog has no table for an import.
    MissingImport = 10,
    /// A field of a symbol table that stands twice.
    RepeatedField = 11,
    /// A symbol table whose greatest id is above 2^31-1.
    TableTooLarge = 12,
    /// `$ion_symbol_table::null.struct`.
    NullTable = 13,
    /// An illegal escape.
    BadEscape = 14,
    /// A text that isn't UTF-8.
    BadUtf8 = 15,
    /// A blob whose content isn't Base64.
    BadBase64 = 16,
    /// A run of two or more operator characters that ends in `-` before a digit.
    Ambiguous = 17,
    /// An octet that can't stand there.
    Unexpected = 18,
    /// Containers nested deeper than the limit.
    Depth = 19,
    /// A top-level item of more octets than the limit.
    ItemTooLong = 20,
    /// A version of Ion other than 1.0.
    Version = 21,
    /// `null`, `true`, `false`, `nan` or a typed null, unquoted, as an annotation or field name.
    KeywordAsName = 22,
}

impl Reason {
    /// The number of the reason, 1 to 22.
    pub fn number(self) -> u8
        ensures { result ≡ reason_number self }
    {
        self as u8
    }

    /// The reason's name, as it stands in the enum: what is printed of it.
    pub fn name(self) -> &'static str
        ensures { result.now ≡ reason_name self }
    {
        match self {
            Reason::Memory => "Memory",
            Reason::Incomplete => "Incomplete",
            Reason::TooLarge => "TooLarge",
            Reason::Malformed => "Malformed",
            Reason::Float => "Float",
            Reason::DuplicateTable => "DuplicateTable",
            Reason::BadTable => "BadTable",
            Reason::SymbolRange => "SymbolRange",
            Reason::ImportGap => "ImportGap",
            Reason::MissingImport => "MissingImport",
            Reason::RepeatedField => "RepeatedField",
            Reason::TableTooLarge => "TableTooLarge",
            Reason::NullTable => "NullTable",
            Reason::BadEscape => "BadEscape",
            Reason::BadUtf8 => "BadUtf8",
            Reason::BadBase64 => "BadBase64",
            Reason::Ambiguous => "Ambiguous",
            Reason::Unexpected => "Unexpected",
            Reason::Depth => "Depth",
            Reason::ItemTooLong => "ItemTooLong",
            Reason::Version => "Version",
            Reason::KeywordAsName => "KeywordAsName",
        }
    }

    /// Whether octets that are refused for it may be Ion 1.0 all the same, which this project
    /// doesn't read (`docs/FORMAT.md`), or not within these limits and under this catalog. Octets
    /// refused for another reason are no Ion 1.0, or are refused for a choice that
    /// `docs/FORMAT.md` marks as own, or want of memory and of further octets says nothing of them.
    pub fn is_of_profile(self) -> bool
        ensures { result ≡ is_of_profile self }
    {
        matches!(
            self,
            Reason::TooLarge
                | Reason::Float
                | Reason::ImportGap
                | Reason::MissingImport
                | Reason::TableTooLarge
                | Reason::Ambiguous
                | Reason::Depth
                | Reason::ItemTooLong
                | Reason::Version
        )
    }
}

impl Display for Reason {
    ghost use Rattle.std.specs.Prelude.{Some};
    ghost use Rattle.ion_atoms.specs.Reasons.{reason_name};

    ghost output = { λ r. Some (reason_name r) };

    fn fmt<W: fmt::Write>(&self, f: &mut Formatter<W>) -> fmt::Result {
        f.write_str(self.name())
    }
}

impl std::error::Error for Reason {}

/// A refusal: where it came, and why.
#[derive(Clone, Copy, Debug, PartialEq, Eq)]
pub struct Refusal {
    /// How many octets decided it: no document begins with that many of the input's first octets,
    /// or, where the input's end decided it, this is the input's length. At `Memory` it says
    /// nothing but how many octets were read before.
    pub offset: u64,
    pub reason: Reason,
}

impl Display for Refusal {
    ghost use Rattle.std.specs.Prelude.{Some};
    ghost use Rattle.ion_atoms.specs.Reasons.{refusal_text};

    ghost output = { λ r. Some (refusal_text r) };

    fn fmt<W: fmt::Write>(&self, f: &mut Formatter<W>) -> fmt::Result {
        write!(f, "{} {}", self.offset, self.reason)
    }
}

impl std::error::Error for Refusal {}

impl<T: Drop> From<AllocFailed<T>> for Reason {
    ghost use Rattle.std.specs.Prelude.{◌≡◌};
    ghost use Rattle.ion_atoms.specs.declared.refusal.Reason.TheVariants.{Memory};

    ghost from_gives = { λ _ e. e ≡ Memory };

    fn from(_failed: AllocFailed<T>) -> Reason {
        Reason::Memory
    }
}

impl From<AllocError> for Reason {
    ghost use Rattle.std.specs.Prelude.{◌≡◌};
    ghost use Rattle.ion_atoms.specs.declared.refusal.Reason.TheVariants.{Memory};

    ghost from_gives = { λ _ e. e ≡ Memory };

    fn from(_failed: AllocError) -> Reason {
        Reason::Memory
    }
}
